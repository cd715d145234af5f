// What the tables hold.
ghost use Rattle.std.specs.Prelude.{◌≡◌, ◌≤◌, length, Some};

use model::kinds::{Slot, Space};

// The object at a place.
#[derive(Clone, Copy, PartialEq, Eq)]
pub struct Object {
    pub number: u32,
    pub kind: u32,
}

// An object as it is read: its type, and the slots of its list.
#[derive(Clone, Copy)]
pub(crate) struct Body<'a> {
    pub kind: u32,
    pub list: &'a [Slot],
    ghost eight: { length list.now ≡ 8 },
}

#[derive(Clone, Copy, PartialEq, Eq)]
pub enum State {
    Running,
    Stopped,
}

// A process, with its name spaces from the oldest on; those past `depth` are unused.
#[derive(Clone, Copy)]
pub struct Process {
    pub state: State,
    pub depth: u8,
    pub spaces: [Space; 6],
    ghost deep: { depth ≤ 6 },
}

impl Process {
    ghost use Rattle.model.specs.SetUp.{newcomer};
    ghost use Rattle.scene.specs.Tasks.{task_of};

    // A process that runs, with one empty name space.
    pub(crate) fn new() -> Process
        ensures { Some (task_of result) ≡ newcomer }
    {
        Process {
            state: State::Running,
            depth: 1,
            spaces: [Space::default(); 6],
        }
    }
}

// A new object: its place on the shelf, and its number.
#[derive(Clone, Copy)]
pub struct Spot {
    pub place: usize,
    pub number: u32,
}

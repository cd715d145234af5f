// The values that a scene is made of, and the requests that processes make.
ghost use Rattle.std.specs.Prelude.{◌≡◌, Some};
ghost use Rattle.model.specs.Plan.{own_site};

use crate::signals::Fault;
use std::fmt;

// An object's name: the share that it was made in, and its number there.
#[derive(Clone, Copy, PartialEq, Eq)]
pub struct Name {
    pub share: u32,
    pub number: u32,
}

#[derive(Clone, Copy, PartialEq, Eq)]
pub struct Cap {
    pub name: Name,
    pub rights: u32,
}

// What a template says: its own rights code, the type wanted (0 for any), the
// rights that an argument must have, and those that it gets.
#[derive(Clone, Copy, PartialEq, Eq)]
pub struct Form {
    pub rights: u32,
    pub wanted: u32,
    pub check: u32,
    pub new: u32,
}

#[derive(Clone, Copy, Default, PartialEq, Eq)]
pub enum Slot {
    #[default]
    Empty,
    Capability(Cap),
    Template(Form),
}

pub const EMPTY: Slot = Slot::Empty;

// A name space, and the slot of the caller's that a returned capability goes to.
#[derive(Clone, Copy, Default)]
pub struct Space {
    pub slots: [Slot; 12],
    pub back: u32,
}

// Whose slots: the process's current name space, or the list of an object.
#[derive(Clone, Copy, PartialEq, Eq)]
pub enum Holder {
    Mine,
    Listed(Name),
}

// Where a slot is, by its index from 1; `at` is the detail of a refusal: the position
// in a path, or 0.
#[derive(Clone, Copy)]
pub struct Site {
    pub holder: Holder,
    pub index: u32,
    pub at: u8,
}

// Where a path ends: clear if every capability on the way grants UCNFRTS.
#[derive(Clone, Copy)]
pub struct Target {
    pub site: Site,
    pub clear: bool,
}

// How a slot's rights code changes on the slot's way.
#[derive(Clone, Copy)]
pub enum Change {
    // Taken out: stripped unless the way was clear.
    Taken { clear: bool },
    // Copied out: the same, and delete added.
    Loaded { clear: bool },
    // Moved: restricted by the mask.
    Moved { mask: Option<u32> },
    // Copied: delete added, then restricted.
    Stored { mask: Option<u32> },
}

// Whose slot set-up fills: a process's or a house object's, by its number.
#[derive(Clone, Copy)]
pub enum Owner {
    Process(u32),
    Object(u32),
}

// How many slots an object's list may have, and how many elements its data part.
#[derive(Clone, Copy)]
pub struct Limits {
    pub slots: usize,
    pub elements: usize,
}

// A slot at a path's end, and the slot of the name space that it goes to.
#[derive(Drop)]
pub struct Fetch {
    pub new: u32,
    pub path: Vec<u32>,
}

// A block of a data part, from its element `disp` on.
#[derive(Drop)]
pub struct Block {
    pub path: Vec<u32>,
    pub disp: u32,
    pub knt: u32,
}

// A slot of the name space that goes where a path ends, under a mask or none.
#[derive(Drop)]
pub struct Move {
    pub path: Vec<u32>,
    pub cur: u32,
    pub mask: Option<u32>,
}

#[derive(Drop)]
pub enum Kall {
    Lenth,
    Clenth(Vec<u32>),
    Dlenth(Vec<u32>),
    Getdata(Block),
    Load(Fetch),
    Pass(Move),
    Take(Fetch),
    Store(Move),
    Append(Move),
    Passappend(Move),
    Delete(Vec<u32>),
    Interchange(Move),
    Data {
        path: Vec<u32>,
        knt: u32,
        mask: Option<u32>,
    },
    Univ(Vec<u32>),
    Putdata(Block),
    Addata {
        path: Vec<u32>,
        knt: u32,
    },
    Erase(Vec<u32>),
}

// What a process asks for, with its own buffer if it has one; the answer comes with
// the serving.
#[derive(Drop)]
pub struct Request<E> {
    pub process: u32,
    pub kall: Kall,
    pub buffer: Option<Vec<E>>,
    pub answer: Option<Result<i32, Fault>>,
}

impl Site {
    // A slot of the current name space.
    pub fn own(index: u32) -> Site
        ensures { result ≡ own_site index }
    {
        Site {
            holder: Holder::Mine,
            index,
            at: 0,
        }
    }
}

impl fmt::Display for Kall {
    ghost use Rattle.model.specs.Kalls.{kall_name};

    ghost output = { λ kall. Some (kall_name kall) };

    fn fmt<W: fmt::Write>(&self, f: &mut fmt::Formatter<W>) -> fmt::Result {
        f.write_str(match self {
            Kall::Lenth => "LENTH",
            Kall::Clenth(_) => "CLENTH",
            Kall::Dlenth(_) => "DLENTH",
            Kall::Getdata(_) => "GETDATA",
            Kall::Load(_) => "LOAD",
            Kall::Pass(_) => "PASS",
            Kall::Take(_) => "TAKE",
            Kall::Store(_) => "STORE",
            Kall::Append(_) => "APPEND",
            Kall::Passappend(_) => "PASSAPPEND",
            Kall::Delete(_) => "DELETE",
            Kall::Interchange(_) => "INTERCHANGE",
            Kall::Data { .. } => "DATA",
            Kall::Univ(_) => "UNIV",
            Kall::Putdata(_) => "PUTDATA",
            Kall::Addata { .. } => "ADDATA",
            Kall::Erase(_) => "ERASE",
        })
    }
}

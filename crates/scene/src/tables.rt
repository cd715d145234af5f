ghost use Rattle.scene.specs.Sound.{Bounded, Distinct};

use crate::kinds::{Object, Process};
use model::kinds::Slot;

// Share 0 has the places 0 to 31, share s the 16 from 16 + 16 s on; the list of the
// object at a place is the eight slots from eight times the place on. Processes go
// by 1 to 8. All slots are one table, empty at first.
#[derive(Drop)]
pub struct Tables {
    pub objects: [Option<Object>; 160],
    pub slots: [Slot; 1280],
    pub given: [u32; 9],
    pub processes: [Option<Process>; 8],
    ghost bounded: { Bounded objects given },
    ghost distinct: { Distinct objects },
}

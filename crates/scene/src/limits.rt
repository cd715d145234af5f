// What an object's type allows it. A type is a number and no enum, since set-up may name
// any, and those from 16 to 255 are the user's.
ghost use Rattle.std.specs.Prelude.{◌≡◌, ◌≤◌};
ghost use Rattle.model.specs.Plan.{limits, room, elements_in};

use model::kinds::Limits;
use model::signals::{Fault, Signal};

pub const DATA: u32 = 1;

pub const UNIVERSAL: u32 = 2;

pub const PROCEDURE: u32 = 3;

#[tactic(auto, using(std::proofs::lemmas::Bool::Decides::nat_tests), unfolding(model::specs::Plan::limits))]
pub fn limits(kind: u32) -> Result<Limits, Fault>
    ensures { result ≡ limits kind }
{
    match kind {
        k if k == DATA => Ok(Limits {
            slots: 0,
            elements: 64,
        }),
        k if k == PROCEDURE => Ok(Limits {
            slots: 8,
            elements: 0,
        }),
        UNIVERSAL | 16..=255 => Ok(Limits {
            slots: 8,
            elements: 64,
        }),
        _ => Err(Fault::new(Signal::Stype, 0)),
    }
}

// How many slots an object's list has.
pub(crate) fn room(kind: u32) -> usize
    ensures value { result ≡ room kind }
    ensures bound { result ≤ 8 }
{
    limits(kind).map_or(0, |limits| limits.slots)
}

// How many elements its data part may have.
pub(crate) fn part_room(kind: u32) -> usize
    ensures value { result ≡ elements_in (limits kind) }
    ensures bound { result ≤ 64 }
{
    limits(kind).map_or(0, |limits| limits.elements)
}

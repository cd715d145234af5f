// The shelf with a row of 64 cells for each place, used or not.
ghost use Rattle.std.specs.Prelude.{◌≡◌, []};
ghost use Rattle.shelf.specs.Kept.{row};
ghost use Rattle.shelf.specs.RowLaws;
ghost use Rattle.shelf.specs.Held.{in_rows};

use crate::cells::Cells;
use crate::laid::Laid;
use crate::layout::Layout;
use crate::lengths::{Length, Lengths};
use crate::place::Place;
use crate::traits::LONGEST;

#[derive(Drop)]
pub struct InRows {}

pub type Rows<'a, E> = Laid<'a, E, InRows>;

impl Layout for InRows {
    ghost start = { λ _. row };

    ghost lawful = { RowLaws.lawful };

    fn start(_: &Lengths, place: Place) -> usize {
        LONGEST * (place.number - 1)
    }

    fn resize<E: Copy>(_: &mut Cells<'_, E>, lengths: &Lengths, place: Place, _: Length) -> usize {
        InRows::start(lengths, place)
    }
}

// Each shelf's making says what that shelf holds.
impl<'a, E> Rows<'a, E> {
    pub fn new(cells: Cells<'a, E>) -> Rows<'a, E>
        ensures { in_rows result ≡ (λ _. []) }
    {
        Laid::empty(cells)
    }
}

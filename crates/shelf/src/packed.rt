// The shelf that keeps its sequences end to end, in the order of their places: later ones move as an earlier one grows or is cleared.
ghost use Rattle.std.specs.Prelude.{◌≡◌, []};
ghost use Rattle.shelf.specs.Kept.{begin};
ghost use Rattle.shelf.specs.PackLaws;
ghost use Rattle.shelf.specs.Held.{in_packed};

use crate::cells::Cells;
use crate::laid::Laid;
use crate::layout::Layout;
use crate::lengths::{Length, Lengths};
use crate::place::Place;

#[derive(Drop)]
pub struct EndToEnd {}

pub type Packed<'a, E> = Laid<'a, E, EndToEnd>;

impl Layout for EndToEnd {
    ghost start = { begin };

    ghost lawful = { PackLaws.lawful };

    fn start(lengths: &Lengths, place: Place) -> usize {
        lengths.before(place)
    }

    fn resize<E: Copy>(
        lent: &mut Cells<'_, E>,
        lengths: &Lengths,
        place: Place,
        length: Length,
    ) -> usize {
        let start = lengths.before(place);
        let end = start + lengths.of(place).count;
        let total = lengths.total();
        lent.cells.copy_within(end..total, start + length.count);
        start
    }
}

// Each shelf's making says what that shelf holds.
impl<'a, E> Packed<'a, E> {
    pub fn new(cells: Cells<'a, E>) -> Packed<'a, E>
        ensures { in_packed result ≡ (λ _. []) }
    {
        Laid::empty(cells)
    }
}

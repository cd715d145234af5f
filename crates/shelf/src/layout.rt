// Where a shelf's sequences lie in its cells.
ghost use Rattle.std.specs.Prelude.{◌≡◌, ◌-◌, ◌≤◌, ℕ, List, slice_set};
ghost use Rattle.shelf.specs.Kept.{Moved, Lawful};

use crate::cells::Cells;
use crate::lengths::{Length, Lengths};
use crate::place::Place;

pub(crate) trait Layout {
    // Where each place's sequence begins, by the table of lengths.
    ghost start: { List ℕ → ℕ → ℕ };

    fn start(lengths: &Lengths, place: Place) -> usize
        ensures { result ≡ start lengths.now.table place.number };

    // Moves the elements to where they lie once the sequence at a place has another length; its own past that are lost.
    // Answers where that sequence begins then.
    fn resize<E: Copy>(
        lent: &mut Cells<'_, E>,
        lengths: &Lengths,
        place: Place,
        length: Length,
    ) -> usize
        ensures begins { result ≡ start (slice_set lengths.now.table (place.number - 1) length.count) place.number }
        ensures moved { Moved start lengths.now.table (slice_set lengths.now.table (place.number - 1) length.count) lent.old.cells.now lent.new.cells.now };

    ghost lawful: { Lawful start };
}

// A shelf over lent cells, generic in where its sequences lie in them.
ghost use Rattle.std.specs.Prelude.{◌≡◌, ◌-◌, ◌≤◌, [], slice_set};
ghost use Rattle.shelf.specs.Kept.{Moved, kept_cell};
ghost use Rattle.shelf.specs.Held.{held};

use crate::cells::Cells;
use crate::layout::Layout;
use crate::lengths::{Length, Lengths};
use crate::place::Place;
use crate::traits::{ReadableShelf, WritableShelf};
use model::signals::Fault;
use std::marker::PhantomData;

#[derive(Drop)]
pub struct Laid<'a, E, L> {
    lent: Cells<'a, E>,
    lengths: Lengths,
    layout: PhantomData<L>,
}

impl<'a, E, L: Layout> Laid<'a, E, L> {
    pub(crate) fn empty(cells: Cells<'a, E>) -> Laid<'a, E, L>
        ensures { held L.start result ≡ (λ _. []) }
    {
        let lengths = Lengths::new();
        Laid {
            lent: cells,
            lengths,
            layout: PhantomData,
        }
    }

    // The cell of an element.
    fn cell(&self, place: usize, index: usize) -> Result<usize, Fault>
        ensures { result ≡ kept_cell (L.start self.now.lengths.table) place index self.now.lengths.table }
    {
        let place = Place::try_from(place)?;
        let at = self.lengths.within(place, index)?;
        Ok(L::start(&self.lengths, place) + at)
    }
}

impl<'a, E: Copy, L: Layout> Laid<'a, E, L> {
    // Gives the sequence at a place another length: where it begins then.
    fn resize(&mut self, place: Place, length: Length) -> usize
        ensures begins { result ≡ L.start self.new.lengths.table place.number }
        ensures lengths { self.new.lengths.table ≡ slice_set self.old.lengths.table (place.number - 1) length.count }
        ensures moved { Moved L.start self.old.lengths.table self.new.lengths.table self.old.lent.cells.now self.new.lent.cells.now }
    {
        let start = L::resize(&mut self.lent, &self.lengths, place, length);
        self.lengths.set(place, length);
        start
    }
}

impl<'a, E: Copy, L: Layout> ReadableShelf for Laid<'a, E, L> {
    type Element = E;

    ghost holds = { held L.start };

    fn length(&mut self, place: usize) -> Result<usize, Fault> {
        let place = Place::try_from(place)?;
        Ok(self.lengths.of(place).count)
    }

    fn element(&mut self, place: usize, index: usize) -> Result<E, Fault> {
        let cell = self.cell(place, index)?;
        Ok(self.lent.cells[cell])
    }
}

impl<'a, E: Copy, L: Layout> WritableShelf for Laid<'a, E, L> {
    fn replace(&mut self, place: usize, index: usize, element: E) -> Result<(), Fault> {
        let cell = self.cell(place, index)?;
        self.lent.cells[cell] = element;
        Ok(())
    }

    fn append(&mut self, place: usize, element: E) -> Result<(), Fault> {
        let place = Place::try_from(place)?;
        let longer = self.lengths.longer(place)?;
        let end = self.resize(place, longer) + longer.count;
        self.lent.cells[end - 1] = element;
        Ok(())
    }

    fn clear(&mut self, place: usize) -> Result<(), Fault> {
        let place = Place::try_from(place)?;
        self.resize(place, Length { count: 0 });
        Ok(())
    }
}

// The lengths of the sequences by places: a fixed table, since a shelf allocates nothing.
ghost use Rattle.std.specs.Prelude.{◌≡◌, ◌+◌, ◌-◌, ◌<◌, ◌≤◌, length, replicate, slice_index, slice_set, sum};
ghost use Rattle.std.specs.Result.{result_map_both};
ghost use Rattle.shelf.specs.Places.{greatest, most, refusal};
ghost use Rattle.shelf.specs.Kept.{Short, before, kept_index, kept_longer};

use crate::place::Place;
use crate::traits::{LONGEST, PLACES};
use model::signals::{Fault, Signal};

#[derive(Clone, Copy)]
pub(crate) struct Length {
    pub(crate) count: usize,
    ghost short: { count ≤ greatest },
}

#[derive(Drop)]
pub(crate) struct Lengths {
    table: [u8; PLACES],
    ghost short: { Short table },
    ghost whole: { length table ≡ 160 },
}

pub(crate) fn refusal() -> Fault
    ensures { result ≡ refusal }
{
    Fault::new(Signal::Slim, 0)
}

fn sum_of(lengths: &[u8]) -> usize
    requires { length lengths.now ≤ 160 }
    ensures { result ≡ sum lengths.now }
{
    lengths.iter().map(|n| *n as usize).sum()
}

impl Lengths {
    pub(crate) fn new() -> Lengths
        ensures { result.table ≡ replicate 160 0 }
    {
        Lengths { table: [0; PLACES] }
    }

    // The length of the sequence at a place.
    pub(crate) fn of(&self, place: Place) -> Length
        ensures { result.count ≡ slice_index self.now.table (place.number - 1) }
    {
        Length {
            count: self.table[place.number - 1] as usize,
        }
    }

    // An index of the sequence at a place, from 0.
    pub(crate) fn within(&self, place: Place, index: usize) -> Result<usize, Fault>
        ensures { result ≡ kept_index place.number index self.now.table }
    {
        if !(1..=self.of(place).count).contains(&index) {
            return Err(refusal());
        }
        Ok(index - 1)
    }

    // The length with one more element, of a sequence that can grow.
    pub(crate) fn longer(&self, place: Place) -> Result<Length, Fault>
        ensures { result_map_both (λ l. l.count) (λ e. e) result ≡ kept_longer place.number self.now.table }
    {
        let count = self.of(place).count;
        if count >= LONGEST {
            return Err(refusal());
        }
        Ok(Length { count: count + 1 })
    }

    // The sum of the lengths of the places before one.
    pub(crate) fn before(&self, place: Place) -> usize
        ensures sum { result ≡ before self.now.table (place.number - 1) }
        ensures fits { result + slice_index self.now.table (place.number - 1) ≤ most }
    {
        sum_of(&self.table[..place.number - 1])
    }

    pub(crate) fn total(&self) -> usize
        ensures sum { result ≡ before self.now.table 160 }
        ensures fits { result ≤ most }
    {
        sum_of(&self.table)
    }

    pub(crate) fn set(&mut self, place: Place, length: Length)
        ensures { self.new.table ≡ slice_set self.old.table (place.number - 1) length.count }
    {
        self.table[place.number - 1] = length.count as u8;
    }
}

// What a shelf is: a sequence of at most 64 elements for each place from 1 to 160.
ghost use Rattle.std.specs.Prelude.{◌≡◌, ℕ, ◌≤◌, List, IfOk};
ghost use Rattle.shelf.specs.Places.{greatest, length_at, element_at, replaced, appended, cleared, Writes};

use model::signals::Fault;

pub const PLACES: usize = 160;

pub const LONGEST: usize = 64;

// A question may change how a shelf keeps its elements, but no sequence.
pub trait ReadableShelf {
    type Element: Copy;

    ghost holds: { Self → ℕ → List Self.Element };

    fn length(&mut self, place: usize) -> Result<usize, Fault>
        ensures same { holds self.new ≡ holds self.old }
        ensures answer { result ≡ length_at place (holds self.old) }
        ensures short { IfOk result (λ n. n ≤ greatest) };

    // Indices are from 1.
    fn element(&mut self, place: usize, index: usize) -> Result<Self::Element, Fault>
        ensures same { holds self.new ≡ holds self.old }
        ensures answer { result ≡ element_at place index (holds self.old) };
}

pub trait WritableShelf: ReadableShelf {
    fn replace(&mut self, place: usize, index: usize, element: Self::Element) -> Result<(), Fault>
        ensures { Writes result (Self.ReadableShelf.holds self.old) (Self.ReadableShelf.holds self.new) (replaced place index element (Self.ReadableShelf.holds self.old)) };

    fn append(&mut self, place: usize, element: Self::Element) -> Result<(), Fault>
        ensures { Writes result (Self.ReadableShelf.holds self.old) (Self.ReadableShelf.holds self.new) (appended place element (Self.ReadableShelf.holds self.old)) };

    fn clear(&mut self, place: usize) -> Result<(), Fault>
        ensures { Writes result (Self.ReadableShelf.holds self.old) (Self.ReadableShelf.holds self.new) (cleared place (Self.ReadableShelf.holds self.old)) };
}

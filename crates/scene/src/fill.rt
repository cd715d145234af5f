ghost use Rattle.std.specs.Prelude.{◌≡◌, ◌≤◌, length};
ghost use Rattle.shelf.specs.Places.{Writes};
ghost use Rattle.model.specs.SetUp.{Creates};
ghost use Rattle.scene.specs.Abstract.{world};
ghost use Rattle.scene.specs.Fill.{filled};

use crate::tables::Tables;
use model::signals::{Fault, Signal};
use shelf::traits::WritableShelf;

// The place holds the elements, and nothing that it held before.
fn fill<S: WritableShelf>(shelf: &mut S, place: usize, elements: &[S::Element]) -> Result<(), Fault>
    requires { length elements.now ≤ 64 }
    ensures { Writes result (S.ReadableShelf.holds shelf.old) (S.ReadableShelf.holds shelf.new) (filled place elements.now (S.ReadableShelf.holds shelf.old)) }
{
    shelf.clear(place)?;
    for element in elements {
        shelf.append(place, *element)?;
    }
    Ok(())
}

// A new object of a share, with its elements: its number.
pub fn create<S: WritableShelf>(
    tables: &mut Tables,
    shelf: &mut S,
    share: u32,
    kind: u32,
    elements: &[S::Element],
) -> Result<u32, Fault>
    ensures { Creates share kind elements.now (world tables.old (S.ReadableShelf.holds shelf.old)) (world tables.new (S.ReadableShelf.holds shelf.new)) result }
{
    if elements.len() > 64 {
        return Err(Fault::new(Signal::Slim, 0));
    }
    let spot = tables.make(share, kind)?;
    fill(shelf, spot.place, elements)?;
    Ok(spot.number)
}

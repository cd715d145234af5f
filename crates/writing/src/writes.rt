// The kalls that write an object's data part.
ghost use Rattle.std.specs.Prelude.{◌≡◌, ◌+◌, ◌≤◌, ◌++◌, length};
ghost use Rattle.model.specs.Kalls.{overwritten, lengthened, kall_putdata, kall_addata};
ghost use Rattle.model.specs.Plan.{after, part_limit};
ghost use Rattle.shelf.specs.Places.{with_place};
ghost use Rattle.scene.specs.Abstract.{frame, world, DoesAll};
ghost use Rattle.writing.specs.Fills.{laid_over, Fills};

use model::kinds::Name;
use model::rights::{ADDRRTS, PUTRTS};
use model::signals::{Fault, Signal};
use paths::carry::write_at;
use reading::data::part_length;
use rights::rule::RightsRule;
use scene::opened::{Scene, Slip};
use scene::tables::Tables;
use shelf::traits::WritableShelf;

// The elements past `start` are replaced.
fn overwrite<S: WritableShelf>(shelf: &mut S, place: usize, start: usize, elements: &[S::Element])
    requires place { (1 ≤ place) × (place ≤ 160) }
    requires there { (start + length elements.now ≤ length (S.ReadableShelf.holds shelf.old place)) × (start + length elements.now ≤ 64) }
    ensures { S.ReadableShelf.holds shelf.new ≡ with_place place (laid_over start elements.now (S.ReadableShelf.holds shelf.old place)) (S.ReadableShelf.holds shelf.old) }
{
    for (i, element) in elements.iter().enumerate() {
        shelf.replace(place, start + i + 1, *element).unwrap();
    }
}

// The elements come after those of the place.
fn extend<S: WritableShelf>(shelf: &mut S, place: usize, elements: &[S::Element])
    requires place { (1 ≤ place) × (place ≤ 160) }
    requires there { length (S.ReadableShelf.holds shelf.old place) + length elements.now ≤ 64 }
    ensures { S.ReadableShelf.holds shelf.new ≡ with_place place (S.ReadableShelf.holds shelf.old place ++ elements.now) (S.ReadableShelf.holds shelf.old) }
{
    for element in elements {
        shelf.append(place, *element).unwrap();
    }
}

// A block of a data part is given the buffer's front.
fn put_block<S: WritableShelf>(
    tables: &Tables,
    shelf: &mut S,
    name: Name,
    disp: u32,
    knt: u32,
    buffer: &[S::Element],
) -> Result<(), Fault>
    ensures { Fills result name (world tables.now (S.ReadableShelf.holds shelf.old)) (world tables.now (S.ReadableShelf.holds shelf.new)) (overwritten disp knt buffer.now ((world tables.now (S.ReadableShelf.holds shelf.old)).elements name)) }
{
    let length = part_length(tables, shelf, name);
    let (disp, knt) = (disp as usize, knt as usize);
    if disp == 0 || knt == 0 || knt > buffer.len() || disp - 1 + knt > length {
        return Err(Fault::new(Signal::Slim, 0));
    }
    let Some(place) = tables.home(name) else {
        return Err(Fault::new(Signal::Slim, 0));
    };
    overwrite(shelf, place, disp - 1, &buffer[..knt]);
    Ok(())
}

// A data part grows by the buffer's front.
fn add_block<S: WritableShelf>(
    tables: &Tables,
    shelf: &mut S,
    name: Name,
    knt: u32,
    buffer: &[S::Element],
) -> Result<(), Fault>
    ensures { Fills result name (world tables.now (S.ReadableShelf.holds shelf.old)) (world tables.now (S.ReadableShelf.holds shelf.new)) (after (part_limit name (frame tables.now)) (λ most. lengthened knt most buffer.now ((world tables.now (S.ReadableShelf.holds shelf.old)).elements name))) }
{
    let length = part_length(tables, shelf, name);
    let limit = tables.part_limit(name);
    let knt = knt as usize;
    if knt == 0 || knt > buffer.len() || length + knt > limit {
        return Err(Fault::new(Signal::Slim, 0));
    }
    let Some(place) = tables.home(name) else {
        return Err(Fault::new(Signal::Slim, 0));
    };
    extend(shelf, place, &buffer[..knt]);
    Ok(())
}

// A block of an object's data part, replaced by the buffer's front.
pub fn putdata<R: RightsRule, S: WritableShelf>(
    scene: &mut Scene<R>,
    _slip: &Slip,
    shelf: &mut S,
    process: u32,
    path: &[u32],
    disp: u32,
    knt: u32,
    buffer: &[S::Element],
) -> Result<i32, Fault>
    ensures { DoesAll process (kall_putdata R.RightsRule.rule process path.now disp knt buffer.now) scene.old.tables (S.ReadableShelf.holds shelf.old) scene.new.tables (S.ReadableShelf.holds shelf.new) result }
{
    let cap = write_at(scene, PUTRTS, process, path)?;
    put_block(&scene.tables, shelf, cap.name, disp, knt, buffer)?;
    Ok(0)
}

// The buffer's front, put after an object's elements.
pub fn addata<R: RightsRule, S: WritableShelf>(
    scene: &mut Scene<R>,
    _slip: &Slip,
    shelf: &mut S,
    process: u32,
    path: &[u32],
    knt: u32,
    buffer: &[S::Element],
) -> Result<i32, Fault>
    ensures { DoesAll process (kall_addata R.RightsRule.rule process path.now knt buffer.now) scene.old.tables (S.ReadableShelf.holds shelf.old) scene.new.tables (S.ReadableShelf.holds shelf.new) result }
{
    let cap = write_at(scene, ADDRRTS, process, path)?;
    add_block(&scene.tables, shelf, cap.name, knt, buffer)?;
    Ok(0)
}

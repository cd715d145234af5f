// Data parts, read from a shelf that may be only readable.
ghost use Rattle.std.specs.Prelude.{◌≡◌, ◌+◌, ◌≤◌, length, take, drop, IfOk};
ghost use Rattle.model.specs.Kalls.{block, replied, kall_getdata};
ghost use Rattle.scene.specs.Abstract.{world};
ghost use Rattle.reading.specs.Blocks.{Reads};

use crate::lengths::read_at;
use model::kinds::Name;
use model::rights::GETRTS;
use model::signals::{Fault, Signal};
use rights::rule::RightsRule;
use scene::opened::{Scene, Slip};
use scene::tables::Tables;
use shelf::traits::ReadableShelf;

// How many elements an object's data part has.
pub fn part_length<S: ReadableShelf>(tables: &Tables, shelf: &mut S, name: Name) -> usize
    ensures same { S.ReadableShelf.holds shelf.new ≡ S.ReadableShelf.holds shelf.old }
    ensures value { result ≡ length ((world tables.now (S.ReadableShelf.holds shelf.old)).elements name) }
    ensures bound { result ≤ 64 }
{
    let Some(place) = tables.home(name) else {
        return 0;
    };
    shelf.length(place).unwrap()
}

// The cells are given the elements past `start`.
fn copy<S: ReadableShelf>(shelf: &mut S, place: usize, start: usize, cells: &mut [S::Element])
    requires place { (1 ≤ place) × (place ≤ 160) }
    requires there { (start + length cells.old ≤ length (S.ReadableShelf.holds shelf.old place)) × (start + length cells.old ≤ 64) }
    ensures same { S.ReadableShelf.holds shelf.new ≡ S.ReadableShelf.holds shelf.old }
    ensures value { cells.new ≡ take (length cells.old) (drop start (S.ReadableShelf.holds shelf.old place)) }
{
    for (i, cell) in cells.iter_mut().enumerate() {
        *cell = shelf.element(place, start + i + 1).unwrap();
    }
}

// A block of a data part, to the buffer's front: how many elements.
fn read_block<S: ReadableShelf>(
    tables: &Tables,
    shelf: &mut S,
    name: Name,
    disp: u32,
    knt: u32,
    buffer: &mut [S::Element],
) -> Result<usize, Fault>
    ensures same { S.ReadableShelf.holds shelf.new ≡ S.ReadableShelf.holds shelf.old }
    ensures value { Reads result buffer.old buffer.new (block disp knt (length buffer.old) ((world tables.now (S.ReadableShelf.holds shelf.old)).elements name)) }
    ensures bound { IfOk result (λ n. n ≤ 64) }
{
    let length = part_length(tables, shelf, name);
    let (disp, knt) = (disp as usize, knt as usize);
    if disp == 0 || disp > length || knt == 0 || knt > buffer.len() {
        return Err(Fault::new(Signal::Slim, 0));
    }
    let Some(place) = tables.home(name) else {
        return Err(Fault::new(Signal::Slim, 0));
    };
    let start = disp - 1;
    let count = knt.min(length - start);
    copy(shelf, place, start, &mut buffer[..count]);
    Ok(count)
}

// A block of an object's data part, copied to the buffer's front: how many elements.
pub fn getdata<R: RightsRule, S: ReadableShelf>(
    scene: &mut Scene<R>,
    _slip: &Slip,
    shelf: &mut S,
    process: u32,
    path: &[u32],
    disp: u32,
    knt: u32,
    buffer: &mut [S::Element],
) -> Result<i32, Fault>
    ensures { record { answer = result; buffer = buffer.new; after = world scene.new.tables (S.ReadableShelf.holds shelf.new) } ≡ replied process buffer.old (world scene.old.tables (S.ReadableShelf.holds shelf.old)) (kall_getdata R.RightsRule.rule process path.now disp knt buffer.old (world scene.old.tables (S.ReadableShelf.holds shelf.old))) }
{
    let cap = read_at(scene, GETRTS, process, path)?;
    let count = read_block(&scene.tables, shelf, cap.name, disp, knt, buffer)?;
    Ok(count as i32)
}

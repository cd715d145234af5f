// The kalls that ask for a length.
// Each is shown the slip and lent the shelf: in one struct the two loans would want
// two clauses more of every contract.
ghost use Rattle.std.specs.Prelude.{◌≡◌};
ghost use Rattle.model.specs.Kalls.{read_at, kall_lenth, kall_clenth, kall_dlenth};
ghost use Rattle.scene.specs.Abstract.{frame, Does, DoesAll};

use crate::data::part_length;
use model::kinds::Cap;
use model::rights::{GETRTS, LOADRTS};
use model::signals::Fault;
use paths::slots::{enter, object_at};
use paths::walk::{READING, walk};
use rights::rule::RightsRule;
use scene::opened::{Scene, Slip};
use shelf::traits::ReadableShelf;

// An object at the end of a reading walk, with a right.
pub(crate) fn read_at<R: RightsRule>(
    scene: &Scene<R>,
    right: u8,
    process: u32,
    path: &[u32],
) -> Result<Cap, Fault>
    ensures { result ≡ read_at R.RightsRule.rule process right path.now (frame scene.now.tables) }
{
    enter(scene, process, None, path.len())?;
    let target = walk(scene, &READING, &READING, process, path)?;
    object_at(scene, &[right], process, target.site)
}

// The length of the current name space.
pub fn lenth<R: RightsRule, S: ReadableShelf>(
    scene: &mut Scene<R>,
    _slip: &Slip,
    _shelf: &mut S,
    process: u32,
) -> Result<i32, Fault>
    ensures { Does process (kall_lenth R.RightsRule.rule process) scene.old.tables (S.ReadableShelf.holds _shelf.old) scene.new.tables (S.ReadableShelf.holds _shelf.new) result }
{
    scene.tables.running(process)?;
    Ok(scene.tables.length(process) as i32)
}

// The length of an object's list.
pub fn clenth<R: RightsRule, S: ReadableShelf>(
    scene: &mut Scene<R>,
    _slip: &Slip,
    _shelf: &mut S,
    process: u32,
    path: &[u32],
) -> Result<i32, Fault>
    ensures { Does process (kall_clenth R.RightsRule.rule process path.now) scene.old.tables (S.ReadableShelf.holds _shelf.old) scene.new.tables (S.ReadableShelf.holds _shelf.new) result }
{
    let cap = read_at(scene, LOADRTS, process, path)?;
    Ok(scene.tables.list_length(cap.name) as i32)
}

// The length of an object's data part.
pub fn dlenth<R: RightsRule, S: ReadableShelf>(
    scene: &mut Scene<R>,
    _slip: &Slip,
    shelf: &mut S,
    process: u32,
    path: &[u32],
) -> Result<i32, Fault>
    ensures { DoesAll process (kall_dlenth R.RightsRule.rule process path.now) scene.old.tables (S.ReadableShelf.holds shelf.old) scene.new.tables (S.ReadableShelf.holds shelf.new) result }
{
    let cap = read_at(scene, GETRTS, process, path)?;
    Ok(part_length(&scene.tables, shelf, cap.name) as i32)
}

// The kalls that move a slot and leave its old place empty, or change two about.
// Each is shown the slip and lent the shelf: in one struct the two loans would want
// two clauses more of every contract. Success is 0.
ghost use Rattle.std.specs.Prelude.{◌≡◌};
ghost use Rattle.model.specs.Kalls.{kall_pass, kall_take, kall_delete, kall_interchange};
ghost use Rattle.scene.specs.Abstract.{Does};

use model::kinds::{Change, EMPTY, Site, Target};
use model::rights::{DLTRTS, ENVRTS, KILLRTS, LOADRTS, MDFYRTS, STORTS};
use model::signals::Fault;
use paths::carry::{carried, fetched};
use paths::recode::changed;
use paths::slots::{enter, held};
use paths::walk::{WRITING, by_way, walk};
use rights::rule::RightsRule;
use scene::opened::{Scene, Slip};
use shelf::traits::ReadableShelf;

// A slot of the name space is moved to an empty slot.
pub fn pass<R: RightsRule, S: ReadableShelf>(
    scene: &mut Scene<R>,
    _slip: &Slip,
    _shelf: &mut S,
    process: u32,
    path: &[u32],
    cur: u32,
    mask: Option<u32>,
) -> Result<i32, Fault>
    ensures { Does process (kall_pass R.RightsRule.rule process path.now cur mask) scene.old.tables (S.ReadableShelf.holds _shelf.old) scene.new.tables (S.ReadableShelf.holds _shelf.new) result }
{
    enter(scene, process, mask, path.len())?;
    let rights = by_way(path, &[DLTRTS], &[DLTRTS, ENVRTS]);
    let (slot, site) = carried(scene, rights, process, path, cur)?;
    let moved = changed(&scene.rule, Change::Moved { mask }, slot);
    scene.tables.put_in(process, site, moved);
    scene.tables.put_in(process, Site::own(cur), EMPTY);
    Ok(0)
}

// A slot at the path's end is moved to an empty slot of the name space.
pub fn take<R: RightsRule, S: ReadableShelf>(
    scene: &mut Scene<R>,
    _slip: &Slip,
    _shelf: &mut S,
    process: u32,
    new: u32,
    path: &[u32],
) -> Result<i32, Fault>
    ensures { Does process (kall_take R.RightsRule.rule process new path.now) scene.old.tables (S.ReadableShelf.holds _shelf.old) scene.new.tables (S.ReadableShelf.holds _shelf.new) result }
{
    let last = [KILLRTS, LOADRTS, MDFYRTS];
    let (slot, target) = fetched(scene, &WRITING, &last, &[DLTRTS], process, new, path)?;
    let Target { site, clear } = target;
    let taken = changed(&scene.rule, Change::Taken { clear }, slot);
    scene.tables.put_in(process, Site::own(new), taken);
    scene.tables.put_in(process, site, EMPTY);
    Ok(0)
}

pub fn delete<R: RightsRule, S: ReadableShelf>(
    scene: &mut Scene<R>,
    _slip: &Slip,
    _shelf: &mut S,
    process: u32,
    path: &[u32],
) -> Result<i32, Fault>
    ensures { Does process (kall_delete R.RightsRule.rule process path.now) scene.old.tables (S.ReadableShelf.holds _shelf.old) scene.new.tables (S.ReadableShelf.holds _shelf.new) result }
{
    enter(scene, process, None, path.len())?;
    let Target { site, .. } = walk(scene, &WRITING, &[MDFYRTS, KILLRTS], process, path)?;
    held(scene, &[DLTRTS], process, site)?;
    scene.tables.put_in(process, site, EMPTY);
    Ok(0)
}

// A slot of the name space and the one at the path's end change places.
pub fn interchange<R: RightsRule, S: ReadableShelf>(
    scene: &mut Scene<R>,
    _slip: &Slip,
    _shelf: &mut S,
    process: u32,
    path: &[u32],
    cur: u32,
    mask: Option<u32>,
) -> Result<i32, Fault>
    ensures { Does process (kall_interchange R.RightsRule.rule process path.now cur mask) scene.old.tables (S.ReadableShelf.holds _shelf.old) scene.new.tables (S.ReadableShelf.holds _shelf.new) result }
{
    enter(scene, process, mask, path.len())?;
    let own = Site::own(cur);
    let slot = held(scene, &[DLTRTS], process, own)?;
    let Target { site, clear } = walk(
        scene,
        &WRITING,
        &[MDFYRTS, KILLRTS, LOADRTS, STORTS],
        process,
        path,
    )?;
    let other = held(scene, &[DLTRTS], process, site)?;
    let taken = changed(&scene.rule, Change::Taken { clear }, other);
    let moved = changed(&scene.rule, Change::Moved { mask }, slot);
    scene.tables.put_in(process, own, taken);
    scene.tables.put_in(process, site, moved);
    Ok(0)
}

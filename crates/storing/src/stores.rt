// The kalls that put a slot of the name space elsewhere, or restrict it in place.
// Each is shown the slip and lent the shelf: in one struct the two loans would want
// two clauses more of every contract. Success is 0.
ghost use Rattle.std.specs.Prelude.{◌≡◌};
ghost use Rattle.model.specs.Kalls.{is_just, appended, kall_store, kall_append, kall_passappend};
ghost use Rattle.scene.specs.Abstract.{frame, Does};

use model::kinds::{Change, EMPTY, Holder, Site, Slot};
use model::rights::{APPRTS, DLTRTS, ENVRTS, MDFYRTS};
use model::signals::Fault;
use paths::carry::carried;
use paths::recode::changed;
use paths::slots::{enter, held, object_at};
use paths::walk::{WRITING, by_way, walk};
use rights::rule::RightsRule;
use scene::opened::{Scene, Slip};
use shelf::traits::ReadableShelf;

// The path is the one index.
fn is_just(index: u32, path: &[u32]) -> bool
    ensures { result ≡ is_just index path.now }
{
    path.len() == 1 && path[0] == index
}

// A copy of a slot is put in an empty one; onto itself, a slot is only restricted.
pub fn store<R: RightsRule, S: ReadableShelf>(
    scene: &mut Scene<R>,
    _slip: &Slip,
    _shelf: &mut S,
    process: u32,
    path: &[u32],
    cur: u32,
    mask: Option<u32>,
) -> Result<i32, Fault>
    ensures { Does process (kall_store R.RightsRule.rule process path.now cur mask) scene.old.tables (S.ReadableShelf.holds _shelf.old) scene.new.tables (S.ReadableShelf.holds _shelf.new) result }
{
    enter(scene, process, mask, path.len())?;
    let own = Site::own(cur);
    if is_just(cur, path) {
        let slot = held(scene, &[DLTRTS], process, own)?;
        let less = changed(&scene.rule, Change::Moved { mask }, slot);
        scene.tables.put_in(process, own, less);
        return Ok(0);
    }
    let rights = by_way(path, &[], &[ENVRTS]);
    let (slot, site) = carried(scene, rights, process, path, cur)?;
    let copy = changed(&scene.rule, Change::Stored { mask }, slot);
    scene.tables.put_in(process, site, copy);
    Ok(0)
}

// A slot of the name space, and where it goes after the length of an object's list.
fn appended<R: RightsRule>(
    scene: &Scene<R>,
    rights: &[u8],
    process: u32,
    path: &[u32],
    cur: u32,
    mask: Option<u32>,
) -> Result<(Slot, Site), Fault>
    ensures { result ≡ appended R.RightsRule.rule process rights.now path.now cur mask (frame scene.now.tables) }
{
    enter(scene, process, mask, path.len())?;
    let slot = held(scene, rights, process, Site::own(cur))?;
    let target = walk(scene, &WRITING, &WRITING, process, path)?;
    let cap = object_at(scene, &[MDFYRTS, APPRTS], process, target.site)?;
    let index = scene.tables.next_slot(cap.name)?;
    let holder = Holder::Listed(cap.name);
    Ok((
        slot,
        Site {
            holder,
            index,
            at: 0,
        },
    ))
}

// A copy of a slot is put after the length of an object's list.
pub fn append<R: RightsRule, S: ReadableShelf>(
    scene: &mut Scene<R>,
    _slip: &Slip,
    _shelf: &mut S,
    process: u32,
    path: &[u32],
    cur: u32,
    mask: Option<u32>,
) -> Result<i32, Fault>
    ensures { Does process (kall_append R.RightsRule.rule process path.now cur mask) scene.old.tables (S.ReadableShelf.holds _shelf.old) scene.new.tables (S.ReadableShelf.holds _shelf.new) result }
{
    let (slot, end) = appended(scene, &[ENVRTS], process, path, cur, mask)?;
    let copy = changed(&scene.rule, Change::Stored { mask }, slot);
    scene.tables.put_in(process, end, copy);
    Ok(0)
}

// The same of the slot itself.
pub fn passappend<R: RightsRule, S: ReadableShelf>(
    scene: &mut Scene<R>,
    _slip: &Slip,
    _shelf: &mut S,
    process: u32,
    path: &[u32],
    cur: u32,
    mask: Option<u32>,
) -> Result<i32, Fault>
    ensures { Does process (kall_passappend R.RightsRule.rule process path.now cur mask) scene.old.tables (S.ReadableShelf.holds _shelf.old) scene.new.tables (S.ReadableShelf.holds _shelf.new) result }
{
    let (slot, end) = appended(scene, &[ENVRTS, DLTRTS], process, path, cur, mask)?;
    let moved = changed(&scene.rule, Change::Moved { mask }, slot);
    scene.tables.put_in(process, end, moved);
    scene.tables.put_in(process, Site::own(cur), EMPTY);
    Ok(0)
}

// The kalls that make an object and end one.
// Each is shown the slip and lent the shelf: in one struct the two loans would want
// two clauses more of every contract. Success is 0.
ghost use Rattle.std.specs.Prelude.{◌≡◌};
ghost use Rattle.model.specs.Kalls.{made_at, kall_data, kall_univ, kall_erase};
ghost use Rattle.scene.specs.Abstract.{Does};

use model::kinds::{Cap, Name, Site, Slot};
use model::rights::ERASERTS;
use model::signals::{Fault, Signal};
use paths::carry::{room_at, write_at};
use paths::recode::masked;
use rights::rule::RightsRule;
use scene::fill::create;
use scene::limits::{DATA, UNIVERSAL};
use scene::opened::{Scene, Slip};
use shelf::traits::WritableShelf;

// An object of the caller's is made with its elements, and a capability for it put at
// the site.
fn make_at<R: RightsRule, S: WritableShelf>(
    scene: &mut Scene<R>,
    shelf: &mut S,
    process: u32,
    site: Site,
    kind: u32,
    mask: Option<u32>,
    elements: &[S::Element],
) -> Result<i32, Fault>
    ensures { Does process (made_at R.RightsRule.rule process kind elements.now site mask) scene.old.tables (S.ReadableShelf.holds shelf.old) scene.new.tables (S.ReadableShelf.holds shelf.new) result }
{
    let number = create(&mut scene.tables, shelf, process, kind, elements)?;
    let rights = masked(&scene.rule, mask, scene.rule.everything());
    let name = Name {
        share: process,
        number,
    };
    let whole = Slot::Capability(Cap { name, rights });
    scene.tables.put_in(process, site, whole);
    Ok(0)
}

// A data object with the buffer's first elements.
pub fn data<R: RightsRule, S: WritableShelf>(
    scene: &mut Scene<R>,
    _slip: &Slip,
    shelf: &mut S,
    process: u32,
    path: &[u32],
    knt: u32,
    mask: Option<u32>,
    buffer: &[S::Element],
) -> Result<i32, Fault>
    ensures { Does process (kall_data R.RightsRule.rule process path.now knt mask buffer.now) scene.old.tables (S.ReadableShelf.holds shelf.old) scene.new.tables (S.ReadableShelf.holds shelf.new) result }
{
    let site = room_at(scene, process, path, mask)?;
    let count = knt as usize;
    if count > buffer.len() {
        return Err(Fault::new(Signal::Slim, 0));
    }
    make_at(scene, shelf, process, site, DATA, mask, &buffer[..count])
}

// A universal object with no elements.
pub fn univ<R: RightsRule, S: WritableShelf>(
    scene: &mut Scene<R>,
    _slip: &Slip,
    shelf: &mut S,
    process: u32,
    path: &[u32],
) -> Result<i32, Fault>
    ensures { Does process (kall_univ R.RightsRule.rule process path.now) scene.old.tables (S.ReadableShelf.holds shelf.old) scene.new.tables (S.ReadableShelf.holds shelf.new) result }
{
    let site = room_at(scene, process, path, None)?;
    make_at(scene, shelf, process, site, UNIVERSAL, None, &[])
}

// An object ends.
pub fn erase<R: RightsRule, S: WritableShelf>(
    scene: &mut Scene<R>,
    _slip: &Slip,
    _shelf: &mut S,
    process: u32,
    path: &[u32],
) -> Result<i32, Fault>
    ensures { Does process (kall_erase R.RightsRule.rule process path.now) scene.old.tables (S.ReadableShelf.holds _shelf.old) scene.new.tables (S.ReadableShelf.holds _shelf.new) result }
{
    let cap = write_at(scene, ERASERTS, process, path)?;
    scene.tables.end(cap.name)?;
    Ok(0)
}

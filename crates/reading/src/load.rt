// The kall that copies a slot into the current name space.
ghost use Rattle.std.specs.Prelude.{◌≡◌};
ghost use Rattle.model.specs.Kalls.{kall_load};
ghost use Rattle.scene.specs.Abstract.{Does};

use model::kinds::{Change, Site, Target};
use model::signals::Fault;
use paths::carry::fetched;
use paths::recode::changed;
use paths::walk::READING;
use rights::rule::RightsRule;
use scene::opened::{Scene, Slip};
use shelf::traits::ReadableShelf;

pub fn load<R: RightsRule, S: ReadableShelf>(
    scene: &mut Scene<R>,
    _slip: &Slip,
    _shelf: &mut S,
    process: u32,
    new: u32,
    path: &[u32],
) -> Result<i32, Fault>
    ensures { Does process (kall_load R.RightsRule.rule process new path.now) scene.old.tables (S.ReadableShelf.holds _shelf.old) scene.new.tables (S.ReadableShelf.holds _shelf.new) result }
{
    let (slot, Target { clear, .. }) = fetched(scene, &READING, &READING, &[], process, new, path)?;
    let copy = changed(&scene.rule, Change::Loaded { clear }, slot);
    scene.tables.put_in(process, Site::own(new), copy);
    Ok(0)
}

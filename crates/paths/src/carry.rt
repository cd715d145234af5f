// What kalls that carry a slot check alike, before anything changes.
ghost use Rattle.std.specs.Prelude.{◌≡◌};
ghost use Rattle.model.specs.Kalls.{carried, fetched, room_at, write_at};
ghost use Rattle.scene.specs.Abstract.{frame};

use crate::slots::{enter, held, object_at};
use crate::walk::{WRITING, walk};
use model::kinds::{Cap, Site, Slot, Target};
use model::rights::{MDFYRTS, STORTS};
use model::signals::Fault;
use rights::rule::RightsRule;
use scene::opened::Scene;

// A slot of the name space, and the empty one at the path's end that it goes to.
pub fn carried<R: RightsRule>(
    scene: &Scene<R>,
    rights: &[u8],
    process: u32,
    path: &[u32],
    cur: u32,
) -> Result<(Slot, Site), Fault>
    ensures { result ≡ carried R.RightsRule.rule process rights.now path.now cur (frame scene.now.tables) }
{
    let slot = held(scene, rights, process, Site::own(cur))?;
    let target = walk(scene, &WRITING, &[STORTS, MDFYRTS], process, path)?;
    scene.tables.vacant(process, target.site)?;
    Ok((slot, target.site))
}

// A slot at the path's end, and how it was reached; an empty one of the name space
// awaits it.
pub fn fetched<R: RightsRule>(
    scene: &Scene<R>,
    step: &[u8],
    last: &[u8],
    rights: &[u8],
    process: u32,
    new: u32,
    path: &[u32],
) -> Result<(Slot, Target), Fault>
    ensures { result ≡ fetched R.RightsRule.rule process step.now last.now rights.now new path.now (frame scene.now.tables) }
{
    enter(scene, process, None, path.len())?;
    scene.tables.vacant(process, Site::own(new))?;
    let target = walk(scene, step, last, process, path)?;
    let slot = held(scene, rights, process, target.site)?;
    Ok((slot, target))
}

// An empty slot at the path's end.
pub fn room_at<R: RightsRule>(
    scene: &Scene<R>,
    process: u32,
    path: &[u32],
    mask: Option<u32>,
) -> Result<Site, Fault>
    ensures { result ≡ room_at R.RightsRule.rule process path.now mask (frame scene.now.tables) }
{
    enter(scene, process, mask, path.len())?;
    let target = walk(scene, &WRITING, &[STORTS, MDFYRTS], process, path)?;
    scene.tables.vacant(process, target.site)?;
    Ok(target.site)
}

// An object at the end of an open writing walk, with the rights to modify it and one
// more.
pub fn write_at<R: RightsRule>(
    scene: &Scene<R>,
    right: u8,
    process: u32,
    path: &[u32],
) -> Result<Cap, Fault>
    ensures { result ≡ write_at R.RightsRule.rule process right path.now (frame scene.now.tables) }
{
    enter(scene, process, None, path.len())?;
    let target = walk(scene, &WRITING, &WRITING, process, path)?;
    object_at(scene, &[right, MDFYRTS], process, target.site)
}

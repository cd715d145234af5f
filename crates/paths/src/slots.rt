// What a slot must be, by what a kall does with it.
ghost use Rattle.std.specs.Prelude.{◌≡◌};
ghost use Rattle.model.specs.Plan.{mask_ok, path_ok, enter, held, object_at};
ghost use Rattle.scene.specs.Abstract.{frame};

use crate::grants::grants_all;
use model::kinds::{Cap, Site, Slot};
use model::signals::{Fault, Signal};
use rights::rule::RightsRule;
use scene::opened::Scene;

fn mask_ok<R: RightsRule>(rule: &R, mask: Option<u32>) -> Result<(), Fault>
    ensures { result ≡ mask_ok R.RightsRule.rule mask }
{
    match mask {
        None => Ok(()),
        Some(code) => rule.check(code),
    }
}

pub(crate) fn path_ok(length: usize) -> Result<(), Fault>
    ensures { result ≡ path_ok length }
{
    if (1..=6).contains(&length) {
        Ok(())
    } else {
        Err(Fault::new(Signal::Spath, 0))
    }
}

// What every kall with a path checks first.
#[tactic(auto, unfolding(model::specs::Plan::enter))]
pub fn enter<R: RightsRule>(
    scene: &Scene<R>,
    process: u32,
    mask: Option<u32>,
    length: usize,
) -> Result<(), Fault>
    ensures { result ≡ enter R.RightsRule.rule process mask length (frame scene.now.tables) }
{
    scene.tables.running(process)?;
    mask_ok(&scene.rule, mask)?;
    path_ok(length)
}

// A capability or a template, whose code grants the rights.
#[tactic(auto, unfolding(model::specs::Plan::held))]
pub fn held<R: RightsRule>(
    scene: &Scene<R>,
    rights: &[u8],
    process: u32,
    site: Site,
) -> Result<Slot, Fault>
    ensures { result ≡ held R.RightsRule.rule rights.now process site.holder site.index site.at (frame scene.now.tables) }
{
    let slot = scene.tables.reach(process, site)?;
    let code = match slot {
        Slot::Empty => return Err(Fault::new(Signal::Snull, site.at)),
        Slot::Capability(cap) => cap.rights,
        Slot::Template(form) => form.rights,
    };
    if !grants_all(&scene.rule, code, rights) {
        return Err(Fault::new(Signal::Srts, site.at));
    }
    Ok(slot)
}

// A capability for a living object, whose code grants the rights.
#[tactic(auto, unfolding(model::specs::Plan::object_at))]
pub fn object_at<R: RightsRule>(
    scene: &Scene<R>,
    rights: &[u8],
    process: u32,
    site: Site,
) -> Result<Cap, Fault>
    ensures { result ≡ object_at R.RightsRule.rule rights.now process site.holder site.index site.at (frame scene.now.tables) }
{
    match scene.tables.reach(process, site)? {
        Slot::Empty => Err(Fault::new(Signal::Snull, site.at)),
        Slot::Template(_) => Err(Fault::new(Signal::Stempl, site.at)),
        Slot::Capability(cap) => {
            if !scene.tables.is_living(cap.name) {
                return Err(Fault::new(Signal::Sgone, site.at));
            }
            if !grants_all(&scene.rule, cap.rights, rights) {
                return Err(Fault::new(Signal::Srts, site.at));
            }
            Ok(cap)
        }
    }
}

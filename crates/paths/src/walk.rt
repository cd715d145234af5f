// Following a path.
ghost use Rattle.std.specs.Prelude.{◌≡◌, drop};
ghost use Rattle.model.specs.Kalls.{by_way};
ghost use Rattle.model.specs.Plan.{asked_of, walk};
ghost use Rattle.scene.specs.Abstract.{frame};

use crate::slots::{object_at, path_ok};
use model::kinds::{Holder, Site, Target};
use model::rights::{LOADRTS, UCNFRTS};
use model::signals::{Fault, Signal};
use rights::rule::RightsRule;
use scene::opened::Scene;

// What a reading walk and a writing walk want of their steps, and of their pretarget where
// nothing else is named.
pub const READING: [u8; 1] = [LOADRTS];

pub const WRITING: [u8; 2] = [LOADRTS, UCNFRTS];

// What is asked of a slot by the way that it takes: a path of one index stays in the
// name space.
pub fn by_way<'a>(path: &[u32], near: &'a [u8], far: &'a [u8]) -> &'a [u8]
    ensures { result.now ≡ by_way path.now near.now far.now }
{
    if path.len() == 1 { near } else { far }
}

// What is asked of an index's capability, by the indexes that come later.
fn asked<'a>(later: &[u32], step: &'a [u8], last: &'a [u8]) -> &'a [u8]
    ensures { result.now ≡ asked_of step.now last.now (drop 1 later.now) }
{
    if later.len() <= 1 { last } else { step }
}

// From the first index on, `step` asked of steps and `last` of the pretarget; the
// first failure ends it.
pub fn walk<R: RightsRule>(
    scene: &Scene<R>,
    step: &[u8],
    last: &[u8],
    process: u32,
    path: &[u32],
) -> Result<Target, Fault>
    ensures { result ≡ walk R.RightsRule.rule step.now last.now process path.now (frame scene.now.tables) }
{
    path_ok(path.len())?;
    let mut rest = path;
    let mut holder = Holder::Mine;
    let mut at = 1u8; // counted for the detail of a refusal
    let mut clear = true;
    loop {
        let Some((index, later)) = rest.split_first() else {
            break Err(Fault::new(Signal::Spath, 0));
        };
        let site = Site {
            holder,
            index: *index,
            at,
        };
        if later.is_empty() {
            break Ok(Target { site, clear });
        }
        match object_at(scene, asked(later, step, last), process, site) {
            Err(fault) => break Err(fault),
            Ok(cap) => {
                clear &= scene.rule.does_grant(cap.rights, UCNFRTS);
                holder = Holder::Listed(cap.name);
            }
        }
        rest = later;
        at += 1;
    }
}

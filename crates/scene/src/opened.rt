// A scene that is opened, and the slip that must be spent to end it.
ghost use Rattle.std.specs.Prelude.{◌≡◌};
ghost use Rattle.model.specs.SetUp.{reckoning};
ghost use Rattle.scene.specs.Abstract.{frame};

use crate::setup::SetUp;
use crate::tables::Tables;
use rights::rule::RightsRule;
use std::array;

pub struct Scene<R> {
    pub rule: R,
    pub tables: Tables,
}

// Shown at every kall; only a reckoning ends it.
pub struct Slip {
    mark: (),
}

// How many objects of each share live.
#[derive(Clone, Copy)]
pub struct Reckoning {
    pub living: [u32; 9],
}

pub fn open<R: RightsRule>(set_up: SetUp<R>) -> (Scene<R>, Slip)
    ensures { result.0.tables ≡ set_up.tables }
{
    let SetUp { rule, tables } = set_up;
    (Scene { rule, tables }, Slip { mark: () })
}

pub fn reckon<R: RightsRule + Drop>(scene: Scene<R>, slip: Slip) -> Reckoning
    ensures { result.living ≡ reckoning (frame scene.tables) }
{
    let Slip { mark: _ } = slip;
    let Scene { rule: _, tables } = scene;
    Reckoning {
        living: array::from_fn(|share| tables.living(share as u32)),
    }
}

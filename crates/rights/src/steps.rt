// Rights as steps of a review, 0 to 3: each step grants what the one below it does, and more.
ghost use Rattle.std.specs.Prelude.{◌≡◌, refl};
ghost use Rattle.rights.specs.Steps.{steps, valid_steps, first_step};
ghost use Rattle.rights.specs.StepLaws;
ghost use Rattle.rights.specs.Reading;

use crate::codes::reading;
use crate::rule::RightsRule;
use model::rights::{CALLRTS, DLTRTS, ENVRTS, ERASERTS, GETRTS, LOADRTS, STORTS, UCNFRTS};

// The codes are the four steps.
const CODES: u32 = 4;

#[derive(Drop)]
pub struct Steps {}

fn first_step(right: u8) -> u32
    ensures { result ≡ first_step right }
{
    match right {
        DLTRTS => 0,
        ENVRTS | ERASERTS => 3,
        LOADRTS | GETRTS | CALLRTS | 13..=20 => 1,
        STORTS..=UCNFRTS => 2,
        _ => 4,
    }
}

impl RightsRule for Steps {
    ghost rule = { steps };

    ghost lawful = { StepLaws.lawful };

    ghost invalid = { Reading.invalid valid_steps refl };

    fn is_valid(&self, code: u32) -> bool {
        code < CODES
    }

    fn does_grant(&self, code: u32, right: u8) -> bool {
        first_step(right) <= reading(code, CODES)
    }

    fn restricted(&self, code: u32, mask: u32) -> u32 {
        reading(code, CODES).min(reading(mask, CODES))
    }

    fn stripped(&self, code: u32) -> u32 {
        reading(code, CODES).min(1)
    }

    fn with_delete(&self, code: u32) -> u32 {
        reading(code, CODES) // every step has DLTRTS
    }

    fn admitted(&self, given: u32, new: u32) -> u32 {
        reading(new, CODES).min(reading(given, CODES).max(1))
    }

    fn everything(&self) -> u32 {
        3 // the last step
    }
}

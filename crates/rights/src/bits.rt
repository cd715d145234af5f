// Rights as a word of 21 bits: bit k grants the right k.
ghost use Rattle.std.specs.Prelude.{◌≡◌, refl};
ghost use Rattle.rights.specs.Bits.{bits, valid_bits};
ghost use Rattle.rights.specs.BitLaws;
ghost use Rattle.rights.specs.Reading;

use crate::codes::reading;
use crate::rule::RightsRule;

// The codes are the words of 21 bits.
const CODES: u32 = 2_097_152;

#[derive(Drop)]
pub struct Bits {}

// Every bit but those of MDFYRTS and UCNFRTS.
const UNSTRIPPED: u32 = 2_095_615;

// Every bit but those of ENVRTS, MDFYRTS and UCNFRTS.
const FREE: u32 = 2_095_613;

impl RightsRule for Bits {
    ghost rule = { bits };

    ghost lawful = { BitLaws.lawful };

    ghost invalid = { Reading.invalid valid_bits refl };

    fn is_valid(&self, code: u32) -> bool {
        code < CODES
    }

    fn does_grant(&self, code: u32, right: u8) -> bool {
        right <= 20 && (reading(code, CODES) >> right) % 2 == 1
    }

    fn restricted(&self, code: u32, mask: u32) -> u32 {
        reading(code, CODES) & reading(mask, CODES)
    }

    fn stripped(&self, code: u32) -> u32 {
        reading(code, CODES) & UNSTRIPPED
    }

    fn with_delete(&self, code: u32) -> u32 {
        reading(code, CODES) | 1
    }

    fn admitted(&self, given: u32, new: u32) -> u32 {
        reading(new, CODES) & (reading(given, CODES) | FREE)
    }

    fn everything(&self) -> u32 {
        8191
    }
}

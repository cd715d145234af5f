// Numbers in a script.
ghost use Rattle.std.specs.Prelude.{◌≡◌};
ghost use Rattle.stage.specs.Script.{numeral};

use crate::wrong::Wrong;

// Decimal digits alone: `parse` would take a plus before them.
pub(crate) fn number(word: &str) -> Result<u32, Wrong>
    ensures { result ≡ numeral word.now }
{
    if word.starts_with('+') {
        return Err(Wrong::Number);
    }
    word.parse().map_err(|_| Wrong::Number)
}

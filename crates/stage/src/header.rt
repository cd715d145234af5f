// The header lines, which choose the rule, the shelf and the element.
ghost use Rattle.stage.specs.Script.{RuleNamed, ShelfNamed, ElementNamed};

use crate::script::{ElementName, Header, RuleName, ShelfName};
use crate::words::words;
use crate::wrong::{BadLine, Wrong};
use std::alloc::Global;
use std::str::FromStr;

impl FromStr for RuleName {
    type Err = Wrong;

    ghost from_str_gives = { RuleNamed };

    fn from_str(word: &str) -> Result<RuleName, Wrong> {
        match word {
            "bits" => Ok(RuleName::Bits),
            "steps" => Ok(RuleName::Steps),
            _ => Err(Wrong::HeaderValue),
        }
    }
}

impl FromStr for ShelfName {
    type Err = Wrong;

    ghost from_str_gives = { ShelfNamed };

    fn from_str(word: &str) -> Result<ShelfName, Wrong> {
        match word {
            "rows" => Ok(ShelfName::Rows),
            "packed" => Ok(ShelfName::Packed),
            _ => Err(Wrong::HeaderValue),
        }
    }
}

impl FromStr for ElementName {
    type Err = Wrong;

    ghost from_str_gives = { ElementNamed };

    fn from_str(word: &str) -> Result<ElementName, Wrong> {
        match word {
            "words" => Ok(ElementName::Words),
            "floats" => Ok(ElementName::Floats),
            _ => Err(Wrong::HeaderValue),
        }
    }
}

fn choose<T: FromStr<Err = Wrong> + Drop>(place: &mut Option<T>, word: &str) -> Result<(), Wrong> {
    if place.is_some() {
        return Err(Wrong::HeaderTwice);
    }
    *place = Some(word.parse()?);
    Ok(())
}

// Whether the line belongs to the header, as a blank one does before all else.
fn take_header(heap: Global, header: &mut Header, line: &str) -> Result<bool, Wrong> {
    match words(heap, line)?.as_slice() {
        [] => {}
        ["rule", name] => choose(&mut header.rule, name)?,
        ["shelf", name] => choose(&mut header.shelf, name)?,
        ["element", name] => choose(&mut header.element, name)?,
        _ => return Ok(false),
    }
    Ok(true)
}

// The header, and how many lines it takes.
pub(crate) fn header(heap: Global, text: &str) -> Result<(Header, usize), BadLine> {
    let mut header = Header::default();
    let mut lines = 0;
    for (i, text) in text.split('\n').enumerate() {
        let line = i + 1;
        if !take_header(heap, &mut header, text).map_err(|wrong| BadLine { line, wrong })? {
            break;
        }
        lines = line;
    }
    Ok((header, lines))
}

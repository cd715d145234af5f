// A script from its text, checked whole.
use crate::element::Element;
use crate::line::{Line, read_line};
use crate::script::{Script, Step};
use crate::words::words;
use crate::wrong::{BadLine, Wrong};
use std::alloc::Global;

// How far a script has come.
#[derive(Clone, Copy, PartialEq, Eq)]
enum Part {
    SetUp,
    Opened,
    Reckoned,
}

impl Part {
    fn expect(self, part: Part) -> Result<(), Wrong> {
        if self == part {
            return Ok(());
        }
        match self {
            Part::SetUp => Err(Wrong::BeforeOpen),
            Part::Opened => Err(Wrong::AfterOpen),
            Part::Reckoned => Err(Wrong::AfterReckon),
        }
    }
}

// A script as far as it is read.
#[derive(Drop)]
struct Draft<E> {
    script: Script<E>,
    part: Part,
}

impl<E: Element> Draft<E> {
    fn new(heap: Global) -> Draft<E> {
        Draft {
            script: Script {
                steps: Vec::new(heap),
                requests: Vec::new(heap),
            },
            part: Part::SetUp,
        }
    }

    // Adds a line, where it may stand there.
    fn add(&mut self, line: Line<E>) -> Result<(), Wrong> {
        match line {
            Line::Blank => {}
            Line::SetUp(command) => {
                self.part.expect(Part::SetUp)?;
                self.script.steps.push(Step {
                    command,
                    answer: None,
                })?;
            }
            Line::Open => {
                self.part.expect(Part::SetUp)?;
                self.part = Part::Opened;
            }
            Line::Asks(request) => {
                self.part.expect(Part::Opened)?;
                self.script.requests.push(request)?;
            }
            Line::Reckon => {
                self.part.expect(Part::Opened)?;
                self.part = Part::Reckoned;
            }
        }
        Ok(())
    }

    fn take(&mut self, heap: Global, text: &str) -> Result<(), Wrong> {
        let words = words(heap, text)?;
        self.add(read_line(heap, words.as_slice())?)
    }

    fn whole(self) -> Result<Script<E>, Wrong> {
        match self.part {
            Part::SetUp => Err(Wrong::NoOpen),
            Part::Opened => Err(Wrong::NoReckon),
            Part::Reckoned => Ok(self.script),
        }
    }
}

// The script after so many lines of header.
pub(crate) fn parse<E: Element>(
    heap: Global,
    text: &str,
    lines: usize,
) -> Result<Script<E>, BadLine> {
    let mut draft = Draft::new(heap);
    let mut line = lines;
    for (i, text) in text.split('\n').enumerate().skip(lines) {
        line = i + 1;
        draft
            .take(heap, text)
            .map_err(|wrong| BadLine { line, wrong })?;
    }
    draft.whole().map_err(|wrong| BadLine { line, wrong })
}

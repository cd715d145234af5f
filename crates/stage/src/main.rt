// Plays a scene script from standard input, and prints what was done.
#![tactic(auto)]

mod element;
mod header;
mod kalls;
mod line;
mod number;
mod parse;
mod play;
mod print;
mod script;
mod words;
mod wrong;

use crate::element::Element;
use crate::header::header;
use crate::parse::parse;
use crate::play::play_script;
use crate::print::print_script;
use crate::script::{ElementName, Header, Script, ShelfName};
use crate::words::space_tabs;
use crate::wrong::Stop;
use scene::opened::Reckoning;
use shelf::cells::Cells;
use shelf::packed::Packed;
use shelf::rows::Rows;
use shelf::traits::{LONGEST, PLACES};
use std::io;
use std::io::{BufWriter, Read, Write};
use std::process::ExitCode;

fn print_out<E: Element>(
    rt: &HostRuntime,
    script: &Script<E>,
    reckoning: &Reckoning,
) -> io::Result<()> {
    let mut out = BufWriter::new(rt.alloc(), rt.stdout())?;
    print_script(&mut out, script, reckoning)?;
    out.flush()
}

// Plays the lines after the header over elements of one type.
fn play_over<E: Element>(
    rt: &HostRuntime,
    header: Header,
    text: &str,
    lines: usize,
) -> Result<(), Stop> {
    let heap = rt.alloc();
    let mut script = parse::<E>(heap, text, lines)?;
    let mut cells = vec![in heap; E::BLANK; PLACES * LONGEST]?;
    let rule = header.rule.unwrap_or_default();
    let cells = Cells::counted(cells.as_mut_slice())?;
    let reckoning = match header.shelf.unwrap_or_default() {
        ShelfName::Rows => play_script(rule, &mut Rows::new(cells), &mut script),
        ShelfName::Packed => play_script(rule, &mut Packed::new(cells), &mut script),
    };
    print_out(rt, &script, &reckoning)?;
    Ok(())
}

fn play_input(rt: &HostRuntime) -> Result<(), Stop> {
    let heap = rt.alloc();
    let mut bytes = Vec::new(heap);
    let mut input = rt.stdin();
    input.read_to_end(&mut bytes)?;
    space_tabs(bytes.as_mut_slice());
    let whole = String::from_utf8_lossy(heap, bytes.as_slice())?;
    let text = whole.as_str();
    let text = text.strip_suffix('\n').unwrap_or(text);
    let (header, lines) = header(heap, text)?;
    match header.element.unwrap_or_default() {
        ElementName::Words => play_over::<u16>(rt, header, text, lines),
        ElementName::Floats => play_over::<f32>(rt, header, text, lines),
    }
}

fn main(rt: HostRuntime) -> ExitCode {
    match play_input(&rt) {
        Ok(()) => ExitCode::SUCCESS,
        Err(stop) => {
            let _ = eprintln!(rt; "{stop}");
            ExitCode::FAILURE
        }
    }
}

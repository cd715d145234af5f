// One line of a script, by its words.
use crate::element::Element;
use crate::kalls::read_kall;
use crate::number::number;
use crate::script::Command;
use crate::wrong::Wrong;
use model::kinds::{Form, Owner, Request};
use std::alloc::Global;

#[derive(Drop)]
pub(crate) enum Line<E> {
    Blank,
    SetUp(Command<E>),
    Open,
    Asks(Request<E>),
    Reckon,
}

// The words before the colon, and those after it.
fn cut<'w, 't>(words: &'w [&'t str]) -> (&'w [&'t str], Option<&'w [&'t str]>) {
    match words.iter().position(|word| *word == ":") {
        Some(i) => (&words[..i], Some(&words[i + 1..])),
        None => (words, None),
    }
}

fn read_buffer<E: Element>(heap: Global, words: Option<&[&str]>) -> Result<Option<Vec<E>>, Wrong> {
    words
        .map(|words| words.iter().map(|word| E::read(word)).try_collect(heap))
        .transpose()
}

fn owner(whose: &str, n: &str) -> Result<Owner, Wrong> {
    match whose {
        "process" => number(n).map(Owner::Process),
        "object" => number(n).map(Owner::Object),
        _ => Err(Wrong::Form),
    }
}

// A line that fills a slot.
fn read_filling<E>(words: &[&str]) -> Result<Command<E>, Wrong> {
    match words {
        ["plant", whose, n, slot, object, code] => Ok(Command::Plant {
            owner: owner(whose, n)?,
            slot: number(slot)?,
            object: number(object)?,
            code: number(code)?,
        }),
        ["template", whose, n, slot, code, wanted, check, new] => Ok(Command::Template {
            owner: owner(whose, n)?,
            slot: number(slot)?,
            form: Form {
                rights: number(code)?,
                wanted: number(wanted)?,
                check: number(check)?,
                new: number(new)?,
            },
        }),
        _ => Err(Wrong::Form),
    }
}

fn make<E: Element>(
    heap: Global,
    kind: &str,
    count: &str,
    buffer: Option<&[&str]>,
) -> Result<Command<E>, Wrong> {
    Ok(Command::Make {
        kind: number(kind)?,
        count: number(count)?,
        buffer: read_buffer(heap, buffer)?,
    })
}

// The process first, then the kall's name and its arguments.
fn ask<E: Element>(
    heap: Global,
    words: &[&str],
    buffer: Option<&[&str]>,
) -> Result<Request<E>, Wrong> {
    let [process, name, arguments @ ..] = words else {
        return Err(Wrong::Form);
    };
    let kall = read_kall(heap, name, arguments)?;
    Ok(Request {
        process: number(process)?,
        kall,
        buffer: read_buffer(heap, buffer)?,
        answer: None,
    })
}

// A line that may end in a buffer.
fn read_with_buffer<E: Element>(heap: Global, words: &[&str]) -> Result<Line<E>, Wrong> {
    let (words, buffer) = cut(words);
    match words {
        ["make", kind, count] => make(heap, kind, count, buffer).map(Line::SetUp),
        _ => ask(heap, words, buffer).map(Line::Asks),
    }
}

pub(crate) fn read_line<E: Element>(heap: Global, words: &[&str]) -> Result<Line<E>, Wrong> {
    match words {
        [] => Ok(Line::Blank),
        ["rule" | "shelf" | "element", _] => Err(Wrong::HeaderLate),
        ["enrol"] => Ok(Line::SetUp(Command::Enrol)),
        ["open"] => Ok(Line::Open),
        ["reckon"] => Ok(Line::Reckon),
        ["plant" | "template", ..] => read_filling(words).map(Line::SetUp),
        _ => read_with_buffer(heap, words),
    }
}

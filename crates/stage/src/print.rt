// What a played script prints: a line for each command.
use crate::script::{Command, Script, Step};
use model::kinds::Request;
use model::signals::Fault;
use scene::opened::Reckoning;
use std::fmt::Display;
use std::io::Write;
use std::{fmt, io};

// An answer as its line has it; `Option` has no `Display`.
#[derive(Clone, Copy)]
struct Shown<T>(Option<Result<T, Fault>>);

impl<T: Display + Copy> Display for Shown<T> {
    fn fmt<W: fmt::Write>(&self, f: &mut fmt::Formatter<W>) -> fmt::Result {
        match self.0 {
            Some(Ok(value)) => write!(f, "{value}"),
            Some(Err(fault)) => write!(f, "{fault}"),
            None => f.write_str("no answer"),
        }
    }
}

fn print_all<T: Display, W: Write>(out: &mut W, items: &[T]) -> io::Result<()> {
    for item in items {
        write!(out, " {item}")?;
    }
    Ok(())
}

// The end of a line, after the buffer that a colon gave.
fn print_buffer<E: Display, W: Write>(out: &mut W, buffer: Option<&[E]>) -> io::Result<()> {
    if let Some(elements) = buffer {
        write!(out, " :")?;
        print_all(out, elements)?;
    }
    writeln!(out)
}

fn print_step<E: Display, W: Write>(out: &mut W, step: &Step<E>) -> io::Result<()> {
    let Step { command, answer } = step;
    let answer = Shown(*answer);
    write!(out, "{command}: {answer}")?;
    match command {
        Command::Make { buffer, .. } => print_buffer(out, buffer.as_deref()),
        _ => writeln!(out),
    }
}

fn print_request<E: Display, W: Write>(out: &mut W, request: &Request<E>) -> io::Result<()> {
    let Request {
        process,
        kall,
        buffer,
        answer,
    } = request;
    let answer = Shown(*answer);
    write!(out, "{process} {kall}: {answer}")?;
    print_buffer(out, buffer.as_deref())
}

fn print_reckoning<W: Write>(out: &mut W, reckoning: &Reckoning) -> io::Result<()> {
    write!(out, "reckon:")?;
    print_all(out, &reckoning.living)?;
    writeln!(out)
}

fn print_steps<E: Display, W: Write>(out: &mut W, steps: &[Step<E>]) -> io::Result<()> {
    for step in steps {
        print_step(out, step)?;
    }
    writeln!(out, "open: 0")
}

fn print_requests<E: Display, W: Write>(out: &mut W, requests: &[Request<E>]) -> io::Result<()> {
    for request in requests {
        print_request(out, request)?;
    }
    Ok(())
}

pub(crate) fn print_script<E: Display, W: Write>(
    out: &mut W,
    script: &Script<E>,
    reckoning: &Reckoning,
) -> io::Result<()> {
    print_steps(out, &script.steps)?;
    print_requests(out, &script.requests)?;
    print_reckoning(out, reckoning)
}

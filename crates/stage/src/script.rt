// What a scene script says, once it is read.
use model::kinds::{Form, Owner, Request};
use model::signals::Fault;
use std::fmt;

#[derive(Clone, Copy, Default)]
pub(crate) enum RuleName {
    #[default]
    Bits,
    Steps,
}

#[derive(Clone, Copy, Default)]
pub(crate) enum ShelfName {
    #[default]
    Rows,
    Packed,
}

#[derive(Clone, Copy, Default)]
pub(crate) enum ElementName {
    #[default]
    Words,
    Floats,
}

// What the header lines chose; a line that is absent chose nothing.
#[derive(Clone, Copy, Default)]
pub(crate) struct Header {
    pub(crate) rule: Option<RuleName>,
    pub(crate) shelf: Option<ShelfName>,
    pub(crate) element: Option<ElementName>,
}

#[derive(Drop)]
pub(crate) enum Command<E> {
    Enrol,
    Make {
        kind: u32,
        count: u32,
        buffer: Option<Vec<E>>,
    },
    Plant {
        owner: Owner,
        slot: u32,
        object: u32,
        code: u32,
    },
    Template {
        owner: Owner,
        slot: u32,
        form: Form,
    },
}

impl<E> fmt::Display for Command<E> {
    fn fmt<W: fmt::Write>(&self, f: &mut fmt::Formatter<W>) -> fmt::Result {
        f.write_str(match self {
            Command::Enrol => "enrol",
            Command::Make { .. } => "make",
            Command::Plant { .. } => "plant",
            Command::Template { .. } => "template",
        })
    }
}

// A command of the set-up; its answer comes with the playing.
#[derive(Drop)]
pub(crate) struct Step<E> {
    pub(crate) command: Command<E>,
    pub(crate) answer: Option<Result<u32, Fault>>,
}

// The whole scene.
#[derive(Drop)]
pub(crate) struct Script<E> {
    pub(crate) steps: Vec<Step<E>>,
    pub(crate) requests: Vec<Request<E>>,
}

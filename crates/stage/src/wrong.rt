// Why a script is not played.
use model::signals::Fault;
use std::alloc::AllocError;
use std::io;
use thiserror::Error;

#[derive(Clone, Copy, Debug, Error)]
pub(crate) enum Wrong {
    #[error("no known form")]
    Form,
    #[error("a number is decimal digits, below 4294967296")]
    Number,
    #[error("a word is a number from 0 to 65535")]
    Word,
    #[error("a float is a decimal such as -1.5, and finite")]
    Float,
    #[error("no such value of this header")]
    HeaderValue,
    #[error("this header stood before")]
    HeaderTwice,
    #[error("a header stands before all else")]
    HeaderLate,
    #[error("this stands only after open")]
    BeforeOpen,
    #[error("this stands only before open")]
    AfterOpen,
    #[error("nothing stands after reckon")]
    AfterReckon,
    #[error("open is missing")]
    NoOpen,
    #[error("reckon is missing")]
    NoReckon,
    #[error("no memory")]
    Memory(#[from(alloc)] AllocError),
}

#[derive(Clone, Copy, Debug, Error)]
#[error("line {line}: {wrong}")]
pub(crate) struct BadLine {
    pub(crate) line: usize,
    pub(crate) wrong: Wrong,
}

// Why the program ends with status 1.
#[derive(Debug, Drop, Error)]
pub(crate) enum Stop {
    #[error(transparent)]
    Script(#[from] BadLine),
    #[error(transparent)]
    Io(#[from] io::Error),
    #[error("no memory")]
    Memory(#[from(alloc)] AllocError),
    #[error("too few cells")]
    Cells(#[from] Fault),
}

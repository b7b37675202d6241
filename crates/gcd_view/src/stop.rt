// Why nothing is shown.

use crate::status::Status;
use clap::error::{Error, ErrorKind};
use gcd_why::{NO_MEMORY, Sentence, Unread};
use std::alloc::AllocError;
use std::fmt;

/// Why nothing is shown.
#[derive(Drop)]
pub enum Stop<'a> {
    /// The words are no call of the program, or ask for help or the version: the parser's answer.
    Words(Error),
    /// The script or the journal under this path cannot be read.
    Unread { path: &'a str },
    /// The script is refused, as the sentence says.
    Script(Sentence<'a>),
    /// The journal is refused, as the sentence says.
    Journal(Sentence<'a>),
    /// Memory ran out.
    Memory,
}

impl<'a> Stop<'a> {
    /// How the program ends.
    pub fn status(&self) -> Status {
        match self {
            Stop::Words(_) => Status::NoCall,
            Stop::Unread { .. } => Status::Unread,
            Stop::Script(_) => Status::ScriptRefused,
            Stop::Journal(_) => Status::JournalRefused,
            Stop::Memory => Status::NoMemory,
        }
    }
}

impl<'a> From<AllocError> for Stop<'a> {
    fn from(_: AllocError) -> Stop<'a> {
        Stop::Memory
    }
}

impl<'a> From<Error> for Stop<'a> {
    fn from(error: Error) -> Stop<'a> {
        match error.kind() {
            ErrorKind::OutOfMemory => Stop::Memory,
            _ => Stop::Words(error),
        }
    }
}

impl<'a> fmt::Display for Stop<'a> {
    fn fmt<W: fmt::Write>(&self, f: &mut fmt::Formatter<W>) -> fmt::Result {
        match self {
            Stop::Words(error) => write!(f, "{error}"),
            Stop::Unread { path } => {
                let unread = Unread::File { path, said: "" };
                write!(f, "{unread}")
            }
            Stop::Script(sentence) | Stop::Journal(sentence) => write!(f, "{sentence}"),
            Stop::Memory => f.write_str(NO_MEMORY),
        }
    }
}

// What could not be read.

use gcd_why::Unread;
use std::alloc::{AllocError, Global};

/// What kind of thing could not be read.
#[derive(Clone, Copy, PartialEq, Eq)]
pub enum Kind {
    File,
    Feed,
    Address,
    Poll,
}

/// The last thing that could not be read, and what the system said, where it said something.
#[derive(Drop)]
pub struct Missed {
    kind: Kind,
    name: String,
    said: String,
}

impl Missed {
    /// It is of that kind, under that name. An `Err` comes only where memory runs out.
    pub fn of(alloc: Global, kind: Kind, name: &str, said: String) -> Result<Missed, AllocError> {
        Ok(Missed {
            kind,
            name: String::from_str(alloc, name)?,
            said,
        })
    }

    /// As it is told.
    pub fn unread(&self) -> Unread<'_> {
        let (name, said) = (self.name.as_str(), self.said.as_str());
        match self.kind {
            Kind::File => Unread::File { path: name, said },
            Kind::Feed => Unread::Feed { path: name, said },
            Kind::Address => Unread::Address {
                address: name,
                said,
            },
            Kind::Poll => Unread::Poll,
        }
    }
}

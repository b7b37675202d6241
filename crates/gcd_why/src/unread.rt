// Why something cannot be read.

use gcd_cause::Shown;
use std::fmt;

/// What could not be read, and where it is named; `said` is what the system said, empty where it said nothing.
#[derive(Clone, Copy)]
pub enum Unread<'a> {
    /// The script, the journal or a file of the script, under this path.
    File { path: &'a str, said: &'a str },
    /// A feed, under this path.
    Feed { path: &'a str, said: &'a str },
    /// Nobody can listen at the address.
    Address { address: &'a str, said: &'a str },
    /// A feed failed while it was read, or the poll itself.
    Poll,
}

impl<'a> fmt::Display for Unread<'a> {
    fn fmt<W: fmt::Write>(&self, f: &mut fmt::Formatter<W>) -> fmt::Result {
        let said = match *self {
            Unread::File { path, said } => {
                let path = Shown(path);
                write!(f, "{path}: the file cannot be read")?;
                said
            }
            Unread::Feed { path, said } => {
                let path = Shown(path);
                write!(f, "{path}: the feed cannot be read")?;
                said
            }
            Unread::Address { address, said } => {
                let address = Shown(address);
                write!(f, "{address}: connections cannot be accepted there")?;
                said
            }
            Unread::Poll => {
                write!(f, "a feed failed while it was read")?;
                ""
            }
        };
        if said.is_empty() {
            Ok(())
        } else {
            write!(f, ": {said}")
        }
    }
}

/// What is said where standard output cannot be written.
pub const CUT_OFF: &str = "standard output cannot be written";

/// What is said where memory runs out.
pub const NO_MEMORY: &str = "out of memory";

/// What is said of a call that may have a team, where memory runs out or the system makes no thread for a worker.
pub const NO_MEMORY_OR_THREAD: &str = "out of memory, or the system makes no thread for a worker";

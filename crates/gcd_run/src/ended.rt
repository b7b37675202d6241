// The answers of the top calls.

use gcd_commands::Found;
use gcd_event::Entry;

/// What the top call answers.
#[derive(Drop)]
pub struct Ended {
    /// The number of the status with which the program ends ([`Status::code`]).
    pub status: u8,
    /// The journal of the run, or the one that was judged; empty where nothing ran or was read, and where memory ran out.
    pub journal: Vec<Entry>,
    /// Where a script is refused, the line, from 1, and the code; line 0 is the script as a whole. Where a journal is refused,
    /// the line and 1, or the index of the event, from 0, and 2.
    pub at: Option<(u32, u32)>,
}

/// What a call answers, and what it found out on its way.
#[derive(Drop)]
pub struct Account {
    /// What the call answers.
    pub ended: Ended,
    /// The plan of the script, and the machine that stands for the journal, or for the events of it before the first that is not permitted;
    /// if the call stopped, its cause.
    pub found: Found,
}

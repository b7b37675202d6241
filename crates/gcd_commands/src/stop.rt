// Why a call stops before it has something to tell.

use gcd_journal::JournalCause;
use gcd_script::Cause;

/// Why a call stops.
#[derive(Clone, Copy)]
pub enum Stop {
    /// A file of the script can't be read, which this line of the script declares, from 1. Line 0: the script or the journal can't be
    /// read, or the address can't be listened at.
    Unread { line: u32 },
    /// The script is refused at this line, from 1, with this cause; line 0 is the script as a whole.
    Script { line: u32, cause: Cause },
    /// The journal is refused at this line, from 1, with this cause; line 0 is the journal as a whole.
    Journal { line: u32, cause: JournalCause },
    /// The call asks for a run beside senders, and the script has no intake.
    NoIntake,
    /// Memory ran out, or the system made no thread for a worker of a long run.
    Memory,
}

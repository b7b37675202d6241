// What a command found out on its way.

use gcd_journal::JournalCause;
use gcd_machine::Machine;
use gcd_plan::Plan;
use gcd_script::Cause;

/// What a command found out on its way to what it tells. It hands this on, so that nobody parses a script, reads a journal or replays
/// its events again.
#[derive(Drop)]
pub enum Found {
    /// Nothing: the words name no command, the script has no intake, or memory ran out.
    Nothing,
    /// Something can't be read. The line of the script, from 1, declares the file that can't; line 0: no line does.
    Unread { line: u32 },
    /// Why the script is refused, at the line that the command tells.
    Script(Cause),
    /// Why the journal is refused, at the line that the command tells.
    Journal(JournalCause),
    /// The plan of the script, and the machine that stands for the events of the run or of the journal; if one of these is not permitted,
    /// for those before the first such.
    Run { plan: Plan, machine: Machine },
}

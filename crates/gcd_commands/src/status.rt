// The statuses with which a call ends.
ghost use Rattle.std.specs.Prelude.{◌≡◌};
ghost use Rattle.gcd_commands.specs.StatusCodes.{status_code, status_of};

use gcd_history::State;

/// How a call ends.
#[derive(Clone, Copy, Debug)]
pub enum Status {
    /// The run drained: nothing may come next, and each block that was submitted has ended. Or the journal that was judged is
    /// lawful.
    Drained,
    /// The run is stuck: nothing may come next, and a block that was submitted has not ended.
    Stuck,
    /// The words name no command.
    NoCommand,
    /// The script is refused, or it or a file of it has more bytes than it may.
    ScriptRefused,
    /// The last event of the run is a misuse.
    Misused,
    /// The script, the journal or a file of the script can't be read, or the poller failed: at its listen, or in the run, which
    /// is then halted.
    Unread,
    /// The sink failed: it took a proper prefix of the text.
    CutOff,
    /// Memory ran out, or the system made no thread for a worker of a long run.
    NoMemory,
    /// The run has as many events as a run may have, and goes on.
    Full,
    /// The journal is refused: it is none, it is longer than its limit, or an event of it is not permitted.
    JournalRefused,
    /// The call asks for a run beside senders, and the script has no intake.
    NoIntake,
}

impl Status {
    /// The status of a run that is over and has come to this state: a run is halted where its poller failed, and one that goes
    /// on is full.
    pub fn of(state: State) -> Status
        ensures { result ≡ status_of state }
    {
        match state {
            State::Drained => Status::Drained,
            State::Stuck => Status::Stuck,
            State::Misused => Status::Misused,
            State::Halted => Status::Unread,
            State::Live => Status::Full,
        }
    }

    /// The number with which the program ends, from 0 to 10.
    pub fn code(self) -> u8
        ensures { result ≡ status_code self }
    {
        match self {
            Status::Drained => 0,
            Status::Stuck => 1,
            Status::NoCommand => 2,
            Status::ScriptRefused => 3,
            Status::Misused => 4,
            Status::Unread => 5,
            Status::CutOff => 6,
            Status::NoMemory => 7,
            Status::Full => 8,
            Status::JournalRefused => 9,
            Status::NoIntake => 10,
        }
    }
}

// Why a run leaves nothing.
ghost use Rattle.std.specs.Prelude.{◌≢◌};

use gcd_pool::PoolFault;
use std::alloc::AllocError;
use std::error::Error;
use std::fmt;

/// Why a run leaves nothing: no journal, no value and no state.
#[derive(Clone, Copy, Debug)]
pub enum RunRefused {
    /// Memory ran out before the first turn: no block has run, and poller and clock are as they were.
    BeforeTheRun,
    /// Memory ran out in the run or after it: blocks may have run, and what poller and clock have told is told.
    InTheRun,
    /// The system made no thread for a worker, and another waited for that worker for ten seconds. As of `InTheRun`, blocks may have run.
    NoThread,
}

impl fmt::Display for RunRefused {
    fn fmt<W: fmt::Write>(&self, f: &mut fmt::Formatter<W>) -> fmt::Result {
        match self {
            RunRefused::BeforeTheRun => write!(f, "out of memory before the run"),
            RunRefused::InTheRun => write!(f, "out of memory in the run"),
            RunRefused::NoThread => write!(f, "the system made no thread for a worker"),
        }
    }
}

impl Error for RunRefused {}

impl From<RunRefused> for AllocError {
    fn from(_refused: RunRefused) -> AllocError {
        AllocError
    }
}

impl From<RunRefused> for PoolFault {
    fn from(refused: RunRefused) -> PoolFault {
        match refused {
            RunRefused::BeforeTheRun | RunRefused::InTheRun => PoolFault::Memory,
            RunRefused::NoThread => PoolFault::NoThread,
        }
    }
}

// Why a run that has begun leaves nothing.
pub(crate) fn begun_refused(fault: PoolFault) -> RunRefused
    ensures { result ≢ RunRefused.BeforeTheRun }
{
    match fault {
        PoolFault::Memory => RunRefused::InTheRun,
        PoolFault::NoThread => RunRefused::NoThread,
    }
}

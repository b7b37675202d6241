// Why a pool's run comes to no result.
use std::alloc::AllocError;
use std::error::Error;
use std::fmt;

/// Why a pool's run comes to no result. No clause says which of the two it was.
#[derive(Clone, Copy, Debug, PartialEq, Eq)]
pub enum PoolFault {
    /// Memory was refused to worker 0's journal.
    Memory,
    /// The system made no thread for a worker, and another waited for that worker for ten seconds.
    NoThread,
}

impl fmt::Display for PoolFault {
    fn fmt<W: fmt::Write>(&self, f: &mut fmt::Formatter<W>) -> fmt::Result {
        match self {
            PoolFault::Memory => write!(f, "out of memory"),
            PoolFault::NoThread => write!(f, "the system made no thread for a worker"),
        }
    }
}

impl Error for PoolFault {}

impl From<AllocError> for PoolFault {
    fn from(_refused: AllocError) -> PoolFault {
        PoolFault::Memory
    }
}

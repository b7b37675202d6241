// Why a caller's jobs are not run.
use std::error::Error;
use std::fmt;

/// Why a caller's jobs are not run. Nothing of a run is left then, and the jobs are dropped.
#[derive(Clone, Copy, Debug, PartialEq, Eq)]
pub enum JobsRefused {
    /// There is not one job for each block of the plan.
    JobCount,
    /// The number of workers is 0, or greater than `MAX_WORKERS` of `gcd_plan`.
    WorkerCount,
    /// The number of events that there may be is 0.
    EventCount,
    /// Memory ran out: before the first event, after the last, or where the journal had to grow in the midst of the run, and then some
    /// jobs have run.
    OutOfMemory,
    /// The system made no thread for a worker, and another waited for that worker for ten seconds. Some jobs may have run.
    NoThread,
}

impl fmt::Display for JobsRefused {
    fn fmt<W: fmt::Write>(&self, f: &mut fmt::Formatter<W>) -> fmt::Result {
        match self {
            JobsRefused::JobCount => write!(f, "the number of jobs is not that of the blocks"),
            JobsRefused::WorkerCount => write!(f, "the number of workers is 0 or above 64"),
            JobsRefused::EventCount => write!(f, "the number of events is 0"),
            JobsRefused::OutOfMemory => write!(f, "out of memory"),
            JobsRefused::NoThread => write!(f, "the system made no thread for a worker"),
        }
    }
}

impl Error for JobsRefused {}

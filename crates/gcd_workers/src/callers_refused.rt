// Why there is no run beside callers.
use std::error::Error;
use std::fmt;

/// Why a plan is not run beside callers, or nothing is left of its run. But for the last two no caller has been called, and no job has run.
#[derive(Clone, Copy, Debug, PartialEq, Eq)]
pub enum CallersRefused {
    /// The plan has no intake.
    NoIntake,
    /// The number of workers is 0, or greater than `MAX_WORKERS` of `gcd_plan`.
    WorkerCount,
    /// The number of senders is 0, or greater than `MAX_SENDERS` of `gcd_front`.
    SenderCount,
    /// Memory ran out, before the run or in it. The callers may have been called, and jobs may have run.
    OutOfMemory,
    /// The system made no thread for a worker, and another waited for that worker for ten seconds. The callers were called, and jobs may have
    /// run.
    NoThread,
}

impl fmt::Display for CallersRefused {
    fn fmt<W: fmt::Write>(&self, f: &mut fmt::Formatter<W>) -> fmt::Result {
        match self {
            CallersRefused::NoIntake => write!(f, "the plan has no intake"),
            CallersRefused::WorkerCount => write!(f, "the number of workers is 0 or above 64"),
            CallersRefused::SenderCount => write!(f, "the number of senders is 0 or above 64"),
            CallersRefused::OutOfMemory => write!(f, "out of memory"),
            CallersRefused::NoThread => write!(f, "the system made no thread for a worker"),
        }
    }
}

impl Error for CallersRefused {}

// The works of a script, as jobs.
ghost use Rattle.std.specs.Prelude.{◌≡◌};
ghost use Rattle.std.specs.Option.{option_map_or};
ghost use Rattle.gcd_history.specs.Values.{work_value};
ghost use Rattle.gcd_jobs.specs.Contents.{contents};

use crate::Job;
use crate::times::{LONG_TIME, work_time};
use crate::works::counted_in;
use gcd_plan::Work;

/// The job of a block whose work counts bytes of a file (this project's own rule). It borrows the files, so that any
/// number of jobs can read them, from several threads. A job takes no memory; its time is that of one pass over the
/// work's range, or constant for the number of bytes.
#[derive(Clone, Copy)]
pub enum FileJob<'a> {
    /// The block has no work, and the job gives 0.
    Nothing,
    /// The job counts the bytes of the work's range as the work says. Files count from 0; a work whose file is not in the
    /// list counts no bytes.
    Counting { files: &'a [Vec<u8>], work: Work },
}

impl<'a> FileJob<'a> {
    ghost use Rattle.gcd_jobs.specs.Jobs.{job_value};

    /// The job of a block that has this work, or none.
    pub fn new(files: &'a [Vec<u8>], work: Option<Work>) -> FileJob<'a>
        ensures { job_value result ≡ option_map_or (work_value (contents files.now)) work 0 }
    {
        match work {
            Some(work) => FileJob::Counting { files, work },
            None => FileJob::Nothing,
        }
    }

    /// Returns how long the job takes if a processor's cache holds its bytes, in sixteenths of a nanosecond (this project's own rule).
    pub fn time(&self) -> u64 {
        match self {
            FileJob::Nothing => 0,
            FileJob::Counting { files, work } => work_time(files, *work),
        }
    }
}

impl Job for FileJob<'_> {
    ghost use Rattle.gcd_jobs.specs.Jobs.{job_value};

    ghost gives = { λ job input value. value ≡ job_value job };

    #[inline(always)]
    fn run(self, _input: u64) -> u64 {
        match self {
            FileJob::Nothing => 0,
            FileJob::Counting { files, work } => counted_in(files, work),
        }
    }

    #[inline(always)]
    fn is_long(&self) -> bool {
        self.time() >= LONG_TIME
    }
}

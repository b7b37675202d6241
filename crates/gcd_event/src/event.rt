// What happens in a run.
ghost use Rattle.std.specs.Prelude.{IsTrue, ◌↔◌, ◌≡◌};
ghost use Rattle.gcd_event.specs.Owners.{begun, ended, worker_of};

use gcd_plan::{
    Blk, MAX_ACTS, MAX_BLOCKS, MAX_OBJECTS, MAX_SENDERS, MAX_TIME, MAX_VALUE, MAX_WORKERS,
    MisuseCode, Obj, Run,
};

/// What happened, in one atomic step. Tick, Ready, FeedEnd, Halt, Expire, Accept and Shut are worker 0's (this project's own
/// rule: libdispatch keeps no journal).
#[derive(Clone, Copy, Debug, PartialEq, Eq)]
pub enum Event {
    /// The worker started the block (dispatch_async(3)).
    Start {
        worker: u8,
        blk: Blk,
    },
    /// The run made its act of this index, from 0.
    Act {
        worker: u8,
        run: Run,
        index: u32,
    },
    /// The parked block goes on, with the worker (dispatch_sync(3), dispatch_semaphore_wait(3), dispatch_group_wait(3)).
    Wake {
        worker: u8,
        blk: Blk,
    },
    /// The block ended.
    End {
        worker: u8,
        blk: Blk,
    },
    /// The source's pending value was handed to its handler (dispatch_source_get_data(3)).
    Deliver {
        worker: u8,
        src: Obj,
    },
    /// The handler's run ended.
    DeliverEnd {
        worker: u8,
        src: Obj,
    },
    /// Time has come to this moment, in milliseconds from the run's begin.
    Tick {
        at: u32,
    },
    /// So many bytes came on the read source's feed.
    Ready {
        src: Obj,
        bytes: u32,
    },
    /// The read source's feed has ended; this cancels the source.
    FeedEnd {
        src: Obj,
    },
    /// The run's act of this index is a misuse with this code, and ends the run of the plan.
    Misuse {
        worker: u8,
        code: u8,
        run: Run,
        index: u32,
    },
    /// The outside failed, which ends the run of the plan.
    Halt,
    /// The limit of the parked block's wait has passed, and the wait is over (dispatch_semaphore_wait(3),
    /// dispatch_group_wait(3)).
    Expire {
        blk: Blk,
    },
    /// A job that this sender, from 0, gave from outside was accepted as the block of the intake (this project's own rule).
    Accept {
        blk: Blk,
        sender: u8,
    },
    /// The intake is shut: no job is accepted any more (this project's own rule).
    Shut,
}

impl Event {
    ghost use Rattle.gcd_event.specs.Fits.{IsFitting};

    /// Whether the event's fields are in their ranges: a worker below [`MAX_WORKERS`], a block below [`MAX_BLOCKS`], a
    /// source from 1 to below [`MAX_OBJECTS`], an index below [`MAX_ACTS`], a time from 1 to [`MAX_TIME`], bytes from 1 to
    /// [`MAX_VALUE`], a code from 1 to [`MisuseCode::LAST`], a sender below [`MAX_SENDERS`]; an accepted block is not block 0,
    /// `main`.
    pub fn fits(&self) -> bool
        ensures { IsTrue result ↔ IsFitting self.now }
    {
        match self {
            Event::Start { worker, blk } => is_worker(*worker) && is_block(*blk),
            Event::Act { worker, run, index } => {
                is_worker(*worker) && is_run(*run) && is_index(*index)
            }
            Event::Wake { worker, blk } => is_worker(*worker) && is_block(*blk),
            Event::End { worker, blk } => is_worker(*worker) && is_block(*blk),
            Event::Deliver { worker, src } => is_worker(*worker) && is_source(*src),
            Event::DeliverEnd { worker, src } => is_worker(*worker) && is_source(*src),
            Event::Tick { at } => 1 <= *at && *at <= MAX_TIME,
            Event::Ready { src, bytes } => is_source(*src) && 1 <= *bytes && *bytes <= MAX_VALUE,
            Event::FeedEnd { src } => is_source(*src),
            Event::Misuse {
                worker,
                run,
                index,
                code,
            } => {
                is_worker(*worker)
                    && is_run(*run)
                    && is_index(*index)
                    && 1 <= *code
                    && *code <= MisuseCode::LAST
            }
            Event::Halt => true,
            Event::Expire { blk } => is_block(*blk),
            Event::Accept { blk, sender } => 1 <= blk.0 && is_block(*blk) && is_sender(*sender),
            Event::Shut => true,
        }
    }

    /// The event's worker; those of the outside (Tick, Ready, FeedEnd, Halt, Expire, Accept, Shut) are worker 0's.
    #[inline(always)]
    pub fn worker(&self) -> u8
        ensures { result ≡ worker_of self.now }
    {
        match *self {
            Event::Start { worker, .. } => worker,
            Event::Act { worker, .. } => worker,
            Event::Wake { worker, .. } => worker,
            Event::End { worker, .. } => worker,
            Event::Deliver { worker, .. } => worker,
            Event::DeliverEnd { worker, .. } => worker,
            Event::Misuse { worker, .. } => worker,
            Event::Tick { .. } | Event::Ready { .. } | Event::FeedEnd { .. } | Event::Halt => 0,
            Event::Expire { .. } | Event::Accept { .. } | Event::Shut => 0,
        }
    }

    /// The run that the event begins: a Start's block, or a Deliver's source; None exactly where it begins none.
    #[inline(always)]
    pub fn begun(&self) -> Option<Run>
        ensures { result ≡ begun self.now }
    {
        match *self {
            Event::Start { blk, .. } => Some(Run::Block(blk)),
            Event::Deliver { src, .. } => Some(Run::Source(src)),
            Event::Act { .. } | Event::Wake { .. } => None,
            Event::End { .. } | Event::DeliverEnd { .. } | Event::Misuse { .. } => None,
            Event::Tick { .. } | Event::Ready { .. } | Event::FeedEnd { .. } | Event::Halt => None,
            Event::Expire { .. } | Event::Accept { .. } | Event::Shut => None,
        }
    }

    /// The run that the event ends: an End's block, or a DeliverEnd's source; None exactly where it ends none.
    #[inline(always)]
    pub fn ended(&self) -> Option<Run>
        ensures { result ≡ ended self.now }
    {
        match *self {
            Event::End { blk, .. } => Some(Run::Block(blk)),
            Event::DeliverEnd { src, .. } => Some(Run::Source(src)),
            Event::Start { .. } | Event::Act { .. } | Event::Wake { .. } => None,
            Event::Deliver { .. } | Event::Misuse { .. } => None,
            Event::Tick { .. } | Event::Ready { .. } | Event::FeedEnd { .. } | Event::Halt => None,
            Event::Expire { .. } | Event::Accept { .. } | Event::Shut => None,
        }
    }
}

ghost use Rattle.gcd_event.specs.Fits.{IsWorker, IsSender, IsBlock, IsSource, IsRun, IsIndex};

fn is_worker(worker: u8) -> bool
    ensures { IsTrue result ↔ IsWorker worker }
{
    u32::from(worker) < MAX_WORKERS
}

fn is_sender(sender: u8) -> bool
    ensures { IsTrue result ↔ IsSender sender }
{
    u32::from(sender) < MAX_SENDERS
}

fn is_block(b: Blk) -> bool
    ensures { IsTrue result ↔ IsBlock b }
{
    b.0 < MAX_BLOCKS
}

fn is_source(s: Obj) -> bool
    ensures { IsTrue result ↔ IsSource s }
{
    1 <= s.0 && s.0 < MAX_OBJECTS
}

fn is_run(run: Run) -> bool
    ensures { IsTrue result ↔ IsRun run }
{
    match run {
        Run::Block(b) => is_block(b),
        Run::Source(s) => is_source(s),
    }
}

fn is_index(index: u32) -> bool
    ensures { IsTrue result ↔ IsIndex index }
{
    index < MAX_ACTS
}

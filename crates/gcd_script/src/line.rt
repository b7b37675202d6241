// What a line does.
ghost use Rattle.std.specs.Prelude.{◌≡◌, ⊤};

use gcd_plan::{Act, Blk, How, Kind, Obj, Run, Work};
use std::alloc::AllocError;

/// What a line of one of the forms does, with what its words mean. New names and paths are texts `N`.
pub enum Line<N> {
    /// `file F PATH`: the file is loaded whole under the path.
    DeclareFile {
        name: N,
        path: N,
    },
    /// A queue, a group, a semaphore or a source. Where its kind has no such thing, the target is `root`, `active` is true
    /// and the path is empty; a source is not active (dispatch_activate(3)).
    DeclareObject {
        name: N,
        kind: Kind,
        target: Obj,
        active: bool,
        path: N,
    },
    /// A block, whose acts follow, with its work, if it has one.
    DeclareBlock {
        name: N,
        work: Option<Work>,
    },
    /// `until MS`: the last due time of timers and limit of waits, in milliseconds.
    SetUntil(u32),
    /// `cancelled S B`: the source's cancellation block (dispatch_source_set_cancel_handler(3)).
    SetCancel {
        source: Obj,
        block: Blk,
    },
    /// `handler S`: the acts of the source's handler follow (dispatch_source_set_event_handler(3)).
    OpenHandler(Obj),
    /// `main`: the acts of `main` follow.
    OpenMain,
    /// `intake Q N`: so many blocks for closures from outside, on the queue.
    DeclareIntake {
        queue: Obj,
        count: u32,
    },
    /// `strip A W F LEN N`: so many blocks, each with the work over the next LEN bytes of the file (dispatch_apply(3)).
    DeclareStrip {
        name: N,
        how: How,
        file: u32,
        len: u32,
        count: u32,
    },
    /// An act of that body.
    AddAct(Run, Act),
}

impl<N: Copy> Clone for Line<N> {
    ghost is_clone = { λ x y. y ≡ x };

    ghost is_infallible = { λ _. ⊤ };

    fn clone(&self) -> Result<Line<N>, AllocError> {
        Ok(*self)
    }
}

impl<N: Copy> Copy for Line<N> {}

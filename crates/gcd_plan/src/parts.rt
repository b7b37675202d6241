// The lists that a plan is made of.
ghost use Rattle.std.specs.Prelude.{◌≡◌, not, IfOk, [], None};
ghost use Rattle.gcd_plan.specs.Made.{strip_work};
ghost use Rattle.gcd_plan.specs.PlanView.{obj_view, blk_view, strip_view};
ghost use Rattle.gcd_plan.specs.Kinds.{is_source_kind};

use crate::act::Act;
use crate::kind::Kind;
use crate::limits::MAX_FILE_BYTES;
use crate::name::Name;
use crate::numbers::{Blk, Obj};
use crate::work::{How, Work};
use std::alloc::{AllocError, Global};

/// What is declared of an object. Where its kind has no such thing, `target` is `Obj(0)`, `active` is true, `path` and
/// `handler` are empty and `cancel` is None.
#[derive(Drop)]
pub struct ObjPart {
    /// The name by which texts call it.
    pub name: String,
    /// What kind of object it is.
    pub kind: Kind,
    /// The target queue of a queue or source (dispatch_set_target_queue(3)).
    pub target: Obj,
    /// Whether it is created active; a source is not (dispatch_activate(3)).
    pub active: bool,
    /// The path of a read source's feed.
    pub path: String,
    /// The acts of a source's event handler (dispatch_source_set_event_handler(3)).
    pub handler: Vec<Act>,
    /// A source's cancellation block (dispatch_source_set_cancel_handler(3)).
    pub cancel: Option<Blk>,
}

impl ObjPart {
    /// An object of this name and kind on target `root`, with no path, no handler and no cancellation block, and active
    /// exactly where its kind is no source (dispatch_activate(3)). An `Err` comes only where memory runs out.
    pub fn new(alloc: Global, name: &str, kind: Kind) -> Result<ObjPart, AllocError>
        ensures { IfOk result (λ o. obj_view o ≡ record {
          name = name.now;
          kind = kind;
          target = record { 0 = 0 };
          active = not (is_source_kind kind);
          path = [];
          handler = [];
          cancel = None;
        }) }
    {
        Ok(ObjPart {
            name: String::from_str(alloc, name)?,
            kind,
            target: Obj(0),
            active: !kind.is_source(),
            path: String::new(alloc),
            handler: Vec::new(alloc),
            cancel: None,
        })
    }
}

/// What is declared of a block.
#[derive(Drop)]
pub struct BlkPart {
    /// The name by which texts call it.
    pub name: Name,
    /// What it does, in order.
    pub acts: Vec<Act>,
    /// What it computes, if anything.
    pub work: Option<Work>,
}

impl BlkPart {
    /// A block of this name that does nothing and computes nothing (this project's own rule). An `Err` comes only where
    /// memory runs out.
    pub fn new(alloc: Global, name: &str) -> Result<BlkPart, AllocError>
        ensures { IfOk result (λ b. blk_view b ≡ record { name = name.now; acts = []; work = None }) }
    {
        Ok(BlkPart {
            name: Name::new(alloc, name)?,
            acts: Vec::new(alloc),
            work: None,
        })
    }
}

/// What is declared of a file.
#[derive(Drop)]
pub struct FilePart {
    /// The name by which works call it.
    pub name: String,
    /// The path under which the shelf has it.
    pub path: String,
    /// The number of the script's line that declares it, from 1.
    pub line: u32,
}

/// What is declared of a strip: blocks that count one part of a file after the other (dispatch_apply(3)).
#[derive(Drop)]
pub struct StripPart {
    /// The name by which texts call it.
    pub name: String,
    /// What each block counts; it is not [`How::Count`].
    pub how: How,
    /// The file's number, from 0.
    pub file: u32,
    /// The bytes of a part, from 1 to [`crate::MAX_FILE_BYTES`].
    pub len: u32,
    /// The number of its first block, from 1.
    pub first: u32,
    /// How many blocks it has.
    pub count: u32,
}

impl StripPart {
    /// The work of the strip's block at this place, from 0: it counts the file's part of this place, or no byte where the part
    /// begins past [`crate::MAX_FILE_BYTES`] (dispatch_apply(3)).
    pub fn work(&self, place: u32) -> Work
        ensures { result ≡ strip_work (strip_view self.now) place }
    {
        let start = u64::from(self.len) * u64::from(place);
        Work {
            how: self.how,
            file: self.file,
            start: start.min(u64::from(MAX_FILE_BYTES)) as u32,
            len: self.len,
        }
    }
}

/// The lists that a plan is made of, by number. Object 0 is the queue `root`, block 0 is `main`.
#[derive(Drop)]
pub struct Parts {
    /// The objects, `root` first.
    pub objects: Vec<ObjPart>,
    /// The blocks, `main` first.
    pub blocks: Vec<BlkPart>,
    /// The files.
    pub files: Vec<FilePart>,
    /// The last due time of timers and limit of waits, in milliseconds from 1 to [`crate::MAX_TIME`].
    pub until: u32,
    /// Where callers from outside may hand in closures: the queue, the number of the first of the intake's blocks, from 1, and
    /// how many there are, from 1 to [`crate::MAX_INTAKE`].
    pub intake: Option<(Obj, u32, u32)>,
    /// The strips (dispatch_apply(3)).
    pub strips: Vec<StripPart>,
}

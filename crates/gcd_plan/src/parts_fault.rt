// Why parts are no plan.

use crate::numbers::{Blk, Obj};
use std::fmt;

/// The rule that parts break, and the part at fault. Objects, blocks, files and strips are told by their number in the parts,
/// and an act by its place in its body; all count from 0.
#[derive(Clone, Copy, Debug, PartialEq, Eq)]
pub enum PartsFault {
    /// Object 0 is missing, or is not the queue `root`: concurrent, its own target, active, and with nothing else.
    NoRoot,
    /// Block 0 is missing, or is not named `main`.
    NoMain,
    /// `main` has a work.
    MainHasWork,
    /// There are more than [`crate::MAX_OBJECTS`] objects.
    TooManyObjects,
    /// There are more than [`crate::MAX_BLOCKS`] blocks.
    TooManyBlocks,
    /// There are more than [`crate::MAX_FILES`] files.
    TooManyFiles,
    /// All bodies together have more than [`crate::MAX_ACTS`] acts.
    TooManyActs,
    /// `until` is 0 or above [`crate::MAX_TIME`].
    UntilOutOfRange,
    /// The object's name is ill-formed ([`crate::is_name`]).
    ObjectNameIllFormed(Obj),
    /// The block's name is ill-formed ([`crate::is_name`]), and the block is not one of the intake or of a strip.
    BlockNameIllFormed(Blk),
    /// The file's name is ill-formed ([`crate::is_name`]).
    FileNameIllFormed(u32),
    /// The object's name is a file's or an earlier object's too.
    ObjectNameTaken(Obj),
    /// The block's name is a file's, an object's, a strip's or an earlier block's too.
    BlockNameTaken(Blk),
    /// The file's name is an earlier file's too.
    FileNameTaken(u32),
    /// The first value of a semaphore is above [`crate::MAX_VALUE`], or the start or the interval of a timer is 0 or above
    /// [`crate::MAX_TIME`].
    KindOutOfRange(Obj),
    /// The path of a read source is ill-formed ([`crate::is_path`]), or an object that is none has a path.
    PathUnfit(Obj),
    /// The target of a queue or source is no queue.
    TargetIsNoQueue(Obj),
    /// A queue, a group or a semaphore has a handler or a cancellation block, which only sources have.
    HasSourceParts(Obj),
    /// A group or a semaphore has a target other than `root`.
    HasTarget(Obj),
    /// A group or a semaphore is inactive at the start.
    Inactive(Obj),
    /// A source is active at the start (dispatch_source_create(3)).
    ActiveSource(Obj),
    /// The source's handler has this act, which a handler may not have: it submits a block or waits.
    HandlerActBarred(Obj, usize),
    /// What this act of the source's handler names is not of the kind that it asks, or its value is above
    /// [`crate::MAX_VALUE`].
    HandlerActUnfit(Obj, usize),
    /// The cancellation block of the source is `main`, is not there, or is one of the intake or of a strip.
    CancelOutOfRange(Obj),
    /// The block's work names a file that is not there, or its range passes [`crate::MAX_FILE_BYTES`].
    WorkOutOfRange(Blk),
    /// What this act of the block names is not of the kind that it asks, or its value is above [`crate::MAX_VALUE`].
    BlockActUnfit(Blk, usize),
    /// The file's path is ill-formed ([`crate::is_path`]).
    FilePathIllFormed(u32),
    /// The block is submitted more than once, by acts or as a cancellation block.
    SubmittedTwice(Blk),
    /// Following the targets from the object never ends at `root`.
    NeverReachesRoot(Obj),
    /// There are more than [`crate::MAX_STRIPS`] strips.
    TooManyStrips,
    /// The strip's name is ill-formed ([`crate::is_name`]).
    StripNameIllFormed(u32),
    /// The strip's name is a file's, an object's or an earlier strip's too.
    StripNameTaken(u32),
    /// What the intake submits to is no queue.
    IntakeOnNoQueue,
    /// The intake has no block, or more than [`crate::MAX_INTAKE`].
    IntakeCountOutOfRange,
    /// `main` is among the blocks of the intake, or they are not all there.
    IntakeBlocksMissing,
    /// The block is one of the intake, and its name is not `+` with its place from 1, or it has an act or a work.
    IntakeBlockUnfit(Blk),
    /// The strip counts the bytes of one value, its file is not there, or its parts have no byte or more than
    /// [`crate::MAX_FILE_BYTES`].
    StripUnfit(u32),
    /// `main` is among the blocks of the strip, or they are not all there.
    StripBlocksMissing(u32),
    /// The block is one of the strip, and its name is not the strip's with `.` and its place from 0, its work is not that of its
    /// place, or it has an act.
    StripBlockUnfit(u32, Blk),
    /// The block is one of two strips, or of a strip and the intake.
    MadeTwice(Blk),
}

/// One plain sentence, as "block 3: it is submitted more than once". The numbers are those of the parts, and count from 0, as
/// the places of acts do.
impl fmt::Display for PartsFault {
    fn fmt<W: fmt::Write>(&self, f: &mut fmt::Formatter<W>) -> fmt::Result {
        write!(f, "{}{}", self.place(), self.what())
    }
}

// Where the fault is.
#[derive(Clone, Copy)]
enum Place {
    // In no single part.
    Lists,
    // In the part of this number, of what the word says.
    Part(&'static str, u32),
    HandlerAct(Obj, usize),
    BlockAct(Blk, usize),
    StripBlock(u32, Blk),
}

// What a sentence begins with that tells what is wrong there.
impl fmt::Display for Place {
    fn fmt<W: fmt::Write>(&self, f: &mut fmt::Formatter<W>) -> fmt::Result {
        match *self {
            Place::Lists => Ok(()),
            Place::Part(word, n) => write!(f, "{word} {n}: "),
            Place::HandlerAct(o, act) => write!(f, "object {}: act {act} of its handler ", o.0),
            Place::BlockAct(b, act) => write!(f, "block {}: act {act} ", b.0),
            Place::StripBlock(strip, b) => write!(f, "strip {strip}: block {} ", b.0),
        }
    }
}

impl PartsFault {
    fn place(self) -> Place {
        match self {
            PartsFault::NoRoot | PartsFault::NoMain | PartsFault::MainHasWork => Place::Lists,
            PartsFault::TooManyObjects | PartsFault::TooManyBlocks => Place::Lists,
            PartsFault::TooManyFiles | PartsFault::TooManyActs => Place::Lists,
            PartsFault::UntilOutOfRange | PartsFault::TooManyStrips => Place::Lists,
            PartsFault::IntakeOnNoQueue | PartsFault::IntakeCountOutOfRange => Place::Lists,
            PartsFault::IntakeBlocksMissing => Place::Lists,
            PartsFault::ObjectNameIllFormed(o)
            | PartsFault::ObjectNameTaken(o)
            | PartsFault::KindOutOfRange(o)
            | PartsFault::PathUnfit(o)
            | PartsFault::TargetIsNoQueue(o)
            | PartsFault::HasSourceParts(o)
            | PartsFault::HasTarget(o)
            | PartsFault::Inactive(o)
            | PartsFault::ActiveSource(o)
            | PartsFault::CancelOutOfRange(o)
            | PartsFault::NeverReachesRoot(o) => Place::Part("object", o.0),
            PartsFault::HandlerActBarred(o, act) | PartsFault::HandlerActUnfit(o, act) => {
                Place::HandlerAct(o, act)
            }
            PartsFault::BlockNameIllFormed(b)
            | PartsFault::BlockNameTaken(b)
            | PartsFault::WorkOutOfRange(b)
            | PartsFault::IntakeBlockUnfit(b)
            | PartsFault::MadeTwice(b)
            | PartsFault::SubmittedTwice(b) => Place::Part("block", b.0),
            PartsFault::BlockActUnfit(b, act) => Place::BlockAct(b, act),
            PartsFault::FileNameIllFormed(file)
            | PartsFault::FileNameTaken(file)
            | PartsFault::FilePathIllFormed(file) => Place::Part("file", file),
            PartsFault::StripNameIllFormed(strip)
            | PartsFault::StripNameTaken(strip)
            | PartsFault::StripUnfit(strip)
            | PartsFault::StripBlocksMissing(strip) => Place::Part("strip", strip),
            PartsFault::StripBlockUnfit(strip, b) => Place::StripBlock(strip, b),
        }
    }

    // What is said of the part at fault.
    fn what(self) -> &'static str {
        match self {
            PartsFault::NoRoot => "object 0 is not the queue root",
            PartsFault::NoMain => "block 0 is not named main",
            PartsFault::MainHasWork => "block 0 is main and has a work",
            PartsFault::TooManyObjects => "there are more objects than a plan may have",
            PartsFault::TooManyBlocks => "there are more blocks than a plan may have",
            PartsFault::TooManyFiles => "there are more files than a plan may have",
            PartsFault::TooManyActs => "there are more acts than a plan may have",
            PartsFault::UntilOutOfRange => "the last due time and limit is out of range",
            PartsFault::ObjectNameIllFormed(_) => "its name is ill-formed",
            PartsFault::BlockNameIllFormed(_) => "its name is ill-formed",
            PartsFault::FileNameIllFormed(_) => "its name is ill-formed",
            PartsFault::ObjectNameTaken(_) => "its name is a file's or an earlier object's",
            PartsFault::BlockNameTaken(_) =>
                "its name is a file's, an object's, a strip's or an earlier block's",
            PartsFault::FileNameTaken(_) => "its name is an earlier file's",
            PartsFault::KindOutOfRange(_) => "a number of its kind is out of range",
            PartsFault::PathUnfit(_) => "its path does not fit its kind",
            PartsFault::TargetIsNoQueue(_) => "its target is no queue",
            PartsFault::HasSourceParts(_) => "it has what only a source may have",
            PartsFault::HasTarget(_) => "it has a target, but it is no queue or source",
            PartsFault::Inactive(_) => "it is inactive, but it is no queue or source",
            PartsFault::ActiveSource(_) => "it is a source and active at the start",
            PartsFault::HandlerActBarred(..) => "submits a block or waits",
            PartsFault::HandlerActUnfit(..) => UNFIT,
            PartsFault::CancelOutOfRange(_) =>
                "its cancellation block is main, not there, or of the intake or a strip",
            PartsFault::WorkOutOfRange(_) => "its work reads no file of the plan, or too far",
            PartsFault::BlockActUnfit(..) => UNFIT,
            PartsFault::FilePathIllFormed(_) => "its path is ill-formed",
            PartsFault::SubmittedTwice(_) => "it is submitted more than once",
            PartsFault::NeverReachesRoot(_) => "its targets never lead to root",
            PartsFault::TooManyStrips => "there are more strips than a plan may have",
            PartsFault::StripNameIllFormed(_) => "its name is ill-formed",
            PartsFault::StripNameTaken(_) =>
                "its name is a file's, an object's or an earlier strip's",
            PartsFault::IntakeOnNoQueue => "the intake is on no queue",
            PartsFault::IntakeCountOutOfRange => "the intake has no block or more than it may have",
            PartsFault::IntakeBlocksMissing =>
                "the blocks of the intake are not all there, or main is one",
            PartsFault::IntakeBlockUnfit(_) => "it is not as the intake makes it",
            PartsFault::StripUnfit(_) =>
                "it counts what no strip may count, or its parts are out of range",
            PartsFault::StripBlocksMissing(_) => "its blocks are not all there, or main is one",
            PartsFault::StripBlockUnfit(..) => "is not as the strip makes it",
            PartsFault::MadeTwice(_) => "it is of two strips, or of a strip and the intake",
        }
    }
}

const UNFIT: &str = "names what is not of the kind that it asks, or its value is out of range";

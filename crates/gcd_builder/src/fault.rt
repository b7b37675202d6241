// Why something is not added to a plan.
ghost use Rattle.gcd_builder.specs.declared.fault.BuildFault.TheVariants.{Memory};
ghost use Rattle.std.specs.Prelude.{◌≡◌};

use crate::asked::Asked;
use crate::fault_part::Part;
use gcd_plan::{Act, Blk, How, Kind, Obj, Run};
use std::alloc::AllocError;
use std::error::Error;
use std::fmt;
use std::fmt::Display;

/// The rule for which [`crate::PlanBuilder`] adds nothing. Numbers count from 0.
#[derive(Clone, Copy, PartialEq, Eq)]
pub enum BuildFault<'a> {
    /// The name is ill-formed ([`gcd_plan::is_name`]).
    NameIllFormed(&'a str),
    /// The name is `root` or `main`.
    NameReserved(&'a str),
    /// Something of this name was added before.
    NameTaken(&'a str),
    /// The path is ill-formed ([`gcd_plan::is_path`]).
    PathIllFormed(&'a str),
    /// The kind is not of the sort that the call expects.
    OtherKind(Kind, Asked),
    /// There is no such object, or it is of another kind than is expected.
    NotObject(Obj, Asked),
    /// The object is `root`, or there is no such queue or source.
    NotHeld(Obj),
    /// The object is `root`, or there is no such object.
    NotCounted(Obj),
    /// The block is `main`, or is of the intake or of a strip, or there is no such block.
    NotBlock(Blk),
    /// There is no file of this number.
    NotFile(u32),
    /// There is no strip of this number (dispatch_apply(3)).
    NotStrip(u32),
    /// The run has no body of its own: the block is of the intake or of a strip, or there is no such block or source.
    NotBody(Run),
    /// The number is below the least that may stand there, or above the greatest.
    OutOfRange { number: u32, least: u32, most: u32 },
    /// A strip may not count this: the bytes of one value (dispatch_apply(3)).
    NotStripCount(How),
    /// An act, or a source's cancellation, submits the block already.
    SubmittedTwice(Blk),
    /// An act applies the strip already (dispatch_apply(3)).
    AppliedTwice(u32),
    /// The act submits something or waits, and a handler may do neither (dispatch_source_set_event_handler(3)).
    InHandler(Act),
    /// The source has a cancellation block already (dispatch_source_set_cancel_handler(3)).
    SecondCancel(Obj),
    /// There is an intake already.
    SecondIntake,
    /// There is no room for one file more ([`gcd_plan::MAX_FILES`]).
    TooManyFiles,
    /// There is no room for one object more ([`gcd_plan::MAX_OBJECTS`]).
    TooManyObjects,
    /// There is no room for so many blocks more ([`gcd_plan::MAX_BLOCKS`]).
    TooManyBlocks(u32),
    /// There is no room for one strip more ([`gcd_plan::MAX_STRIPS`]).
    TooManyStrips,
    /// There is no room for one act more ([`gcd_plan::MAX_ACTS`]).
    TooManyActs,
    /// Memory ran out, in this call or an earlier one. Of the rule nothing is known.
    Memory,
}

impl BuildFault<'_> {
    // What is wrong, in words.
    fn what(self) -> &'static str {
        match self {
            BuildFault::NameIllFormed(_) => "the name is ill-formed",
            BuildFault::NameReserved(_) => "the name is root or main",
            BuildFault::NameTaken(_) => "the name is taken",
            BuildFault::PathIllFormed(_) => "the path is ill-formed",
            BuildFault::OtherKind(..) => "the kind is another than is expected",
            BuildFault::NotObject(..) => "there is no object of this number and kind",
            BuildFault::NotHeld(_) => "the object is no queue but root, and no source",
            BuildFault::NotCounted(_) => "there is no object of this number but root",
            BuildFault::NotBlock(_) =>
                "there is no such block, or it is main, or of the intake or a strip",
            BuildFault::NotFile(_) => "there is no file of this number",
            BuildFault::NotStrip(_) => "there is no strip of this number",
            BuildFault::NotBody(_) => "the run has no body of its own",
            BuildFault::OutOfRange { .. } => "the number is out of range",
            BuildFault::NotStripCount(_) => "a strip counts no bytes of one value",
            BuildFault::SubmittedTwice(_) => "the block is submitted already",
            BuildFault::AppliedTwice(_) => "the strip is applied already",
            BuildFault::InHandler(_) => "a handler submits nothing and waits for nothing",
            BuildFault::SecondCancel(_) => "the source has a cancellation block already",
            BuildFault::SecondIntake => "there is an intake already",
            BuildFault::TooManyFiles => "there is no room for one file more",
            BuildFault::TooManyObjects => "there is no room for one object more",
            BuildFault::TooManyBlocks(_) => "there is no room for the blocks",
            BuildFault::TooManyStrips => "there is no room for one strip more",
            BuildFault::TooManyActs => "there is no room for one act more",
            BuildFault::Memory => "out of memory",
        }
    }
}

/// The rule in words, and behind a colon what breaks it: "the name is taken: cache".
impl fmt::Display for BuildFault<'_> {
    fn fmt<W: fmt::Write>(&self, f: &mut fmt::Formatter<W>) -> fmt::Result {
        f.write_str(self.what())?;
        Part::of(*self).fmt(f)
    }
}

impl fmt::Debug for BuildFault<'_> {
    fn fmt<W: fmt::Write>(&self, f: &mut fmt::Formatter<W>) -> fmt::Result {
        f.write_str(self.what())?;
        Part::of(*self).fmt(f)
    }
}

impl Error for BuildFault<'_> {}

impl<'a> From<AllocError> for BuildFault<'a> {
    ghost from_gives = { λ _ e. e ≡ Memory };

    fn from(_e: AllocError) -> BuildFault<'a> {
        BuildFault::Memory
    }
}

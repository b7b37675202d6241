// What breaks a rule of plans, in words.

use crate::asked::Asked;
use crate::fault::BuildFault;
use gcd_plan::{Act, How, Obj, Run};
use std::fmt;

// The part of a plan or of a call that is at fault.
#[derive(Clone, Copy)]
pub enum Part<'a> {
    Nothing,
    Name(&'a str),
    Object(Obj),
    Expected(Asked),
    ObjectExpected(Obj, Asked),
    Numbered(&'static str, u32),
    Range(u32, u32, u32),
    Act(Act),
}

impl<'a> Part<'a> {
    /// Returns what the fault names.
    pub fn of(fault: BuildFault<'a>) -> Part<'a> {
        match fault {
            BuildFault::NameIllFormed(name) | BuildFault::NameReserved(name) => Part::Name(name),
            BuildFault::NameTaken(name) | BuildFault::PathIllFormed(name) => Part::Name(name),
            BuildFault::OtherKind(_, asked) => Part::Expected(asked),
            BuildFault::NotObject(o, asked) => Part::ObjectExpected(o, asked),
            BuildFault::NotHeld(o) | BuildFault::NotCounted(o) => Part::Object(o),
            BuildFault::SecondCancel(s) => Part::Numbered("source", s.0),
            BuildFault::NotBlock(b) | BuildFault::SubmittedTwice(b) => Part::Numbered("block", b.0),
            BuildFault::NotBody(Run::Block(b)) => Part::Numbered("block", b.0),
            BuildFault::NotBody(Run::Source(s)) => Part::Numbered("source", s.0),
            BuildFault::NotFile(file) => Part::Numbered("file", file),
            BuildFault::NotStrip(a) | BuildFault::AppliedTwice(a) => Part::Numbered("strip", a),
            BuildFault::OutOfRange {
                number,
                least,
                most,
            } => Part::Range(number, least, most),
            BuildFault::NotStripCount(How::Count(byte)) => Part::Numbered("byte", u32::from(byte)),
            BuildFault::NotStripCount(_) => Part::Nothing,
            BuildFault::InHandler(act) => Part::Act(act),
            BuildFault::TooManyBlocks(count) => Part::Numbered("blocks", count),
            BuildFault::SecondIntake | BuildFault::TooManyFiles => Part::Nothing,
            BuildFault::TooManyObjects | BuildFault::TooManyStrips => Part::Nothing,
            BuildFault::TooManyActs | BuildFault::Memory => Part::Nothing,
        }
    }
}

impl fmt::Display for Part<'_> {
    fn fmt<W: fmt::Write>(&self, f: &mut fmt::Formatter<W>) -> fmt::Result {
        match *self {
            Part::Nothing => Ok(()),
            Part::Name(name) => write!(f, ": {name}"),
            Part::Object(o) => write!(f, ": object {}", o.0),
            Part::Expected(asked) => write!(f, ": expected {}", asked.words()),
            Part::ObjectExpected(o, asked) => {
                write!(f, ": object {}, expected {}", o.0, asked.words())
            }
            Part::Numbered(what, number) => write!(f, ": {what} {number}"),
            Part::Range(number, least, most) => {
                write!(f, ": {number} is not from {least} to {most}")
            }
            Part::Act(act) => write!(f, ": {}", act_word(act)),
        }
    }
}

// The script's word of an act that no handler may have (dispatch_source_set_event_handler(3)).
fn act_word(act: Act) -> &'static str {
    match act {
        Act::Async(..) => "async",
        Act::Barrier(..) => "barrier",
        Act::Sync(..) => "sync",
        Act::BarrierSync(..) => "barrier_sync",
        Act::GroupAsync(..) => "group_async",
        Act::Notify(..) => "notify",
        Act::GroupWait(_) => "group_wait",
        Act::GroupWaitFor(..) => "group_wait_for",
        Act::Wait(_) => "wait",
        Act::WaitFor(..) => "wait_for",
        Act::Apply(..) => "apply",
        Act::WaitBlock(_) => "wait_block",
        Act::NotifyBlock(..) => "notify_block",
        _ => "an act of handlers",
    }
}

// What exactly is wrong with a line of a script.
ghost use Rattle.std.specs.Prelude.{◌≡◌};
ghost use Rattle.gcd_script.specs.Causes.{cause_refusal, cause_code};

use crate::amount::Amount;
use crate::refusal::Refusal;
use gcd_builder::Asked;

/// A word that a form spells out, or a choice of such words.
#[derive(Clone, Copy)]
pub enum Choice {
    /// `on`.
    On,
    /// `inactive`.
    Inactive,
    /// `read`.
    Read,
    /// `timer`.
    Timer,
    /// `count`.
    Count,
    /// The kind of a queue: `serial` or `concurrent`.
    QueueKind,
    /// The kind of a source of merged values: `add`, `or` or `replace`.
    MergeKind,
    /// What a work counts: `bytes`, `lines`, `words` or `sum`.
    Work,
}

/// What there is no room for.
#[derive(Clone, Copy)]
pub enum Limit {
    /// One file more.
    Files,
    /// One object more.
    Objects,
    /// The line's blocks.
    Blocks,
    /// One strip more.
    Strips,
    /// One act more.
    Acts,
    /// The bytes of the script.
    Script,
    /// The bytes of the file that the line declares.
    File,
}

/// What exactly is wrong with a line of a script. A `place` is that of a word of the line, from 1, the first word.
#[derive(Clone, Copy)]
pub enum Cause {
    /// The line has a byte other than 32 to 126.
    BadByte,
    /// No form begins with the first word.
    UnknownFirst,
    /// No form of the first word has so many words.
    WordCount,
    /// The form spells out another word there.
    Misplaced { place: u8, expected: Choice },
    /// The path has more bytes than a path may have.
    LongPath { place: u8 },
    /// It is an act, and no body is open.
    OutsideBody,
    /// It is a second `until`.
    SecondUntil,
    /// It is a second `intake`.
    SecondIntake,
    /// The declared name is ill-formed.
    IllFormedName,
    /// The declared name is `root` or `main`.
    ReservedName,
    /// An earlier line declares the name.
    TakenName,
    /// No earlier line declares the name.
    UnknownName { place: u8 },
    /// The name is not a file's.
    NotFile { place: u8 },
    /// The name is not a block's.
    NotBlock { place: u8 },
    /// The name is not a strip's.
    NotStrip { place: u8 },
    /// The name is not that of such an object.
    NotObject { place: u8, asked: Asked },
    /// The word is not a number, or the number is out of its range.
    BadNumber { place: u8, amount: Amount },
    /// An earlier line submits the block.
    SubmittedTwice,
    /// An earlier line applies the strip.
    AppliedTwice,
    /// The source has a handler already.
    SecondHandler,
    /// The source has a cancellation block already.
    SecondCancel,
    /// The act may not be in a handler, and the handler of a source is open.
    InHandler,
    /// There is no room for what the line adds.
    PastLimit(Limit),
    /// It is a second `main`.
    SecondMain,
    /// The script ends, and no line is `main`.
    NoMain,
}

impl Cause {
    /// Returns the refusal that the cause belongs to.
    pub fn refusal(self) -> Refusal
        ensures { result ≡ cause_refusal self }
    {
        match self {
            Cause::BadByte => Refusal::NoForm,
            Cause::UnknownFirst => Refusal::NoForm,
            Cause::WordCount => Refusal::NoForm,
            Cause::Misplaced { .. } => Refusal::NoForm,
            Cause::LongPath { .. } => Refusal::NoForm,
            Cause::OutsideBody => Refusal::NoForm,
            Cause::SecondUntil => Refusal::BadName,
            Cause::SecondIntake => Refusal::BadName,
            Cause::IllFormedName => Refusal::BadName,
            Cause::ReservedName => Refusal::BadName,
            Cause::TakenName => Refusal::BadName,
            Cause::UnknownName { .. } => Refusal::UnknownName,
            Cause::NotFile { .. } => Refusal::OtherKind,
            Cause::NotBlock { .. } => Refusal::OtherKind,
            Cause::NotStrip { .. } => Refusal::OtherKind,
            Cause::NotObject { .. } => Refusal::OtherKind,
            Cause::BadNumber { .. } => Refusal::BadNumber,
            Cause::SubmittedTwice => Refusal::Repeated,
            Cause::AppliedTwice => Refusal::Repeated,
            Cause::SecondHandler => Refusal::Repeated,
            Cause::SecondCancel => Refusal::Repeated,
            Cause::InHandler => Refusal::InHandler,
            Cause::PastLimit(_) => Refusal::PastLimit,
            Cause::SecondMain => Refusal::NotOneMain,
            Cause::NoMain => Refusal::NotOneMain,
        }
    }

    /// Returns its code, from 1 to 9.
    pub fn code(self) -> u8
        ensures { result ≡ cause_code self }
    {
        self.refusal().code()
    }
}

// Why a line of a script is refused.
ghost use Rattle.std.specs.Prelude.{◌≡◌};
ghost use Rattle.gcd_script.specs.Codes.{refusal_code};

/// Why a line of a script is refused. Where several refusals apply to a line, the one of the lowest code is told.
#[derive(Clone, Copy, Debug)]
pub enum Refusal {
    /// The line has a byte other than 32 to 126, or is of no form, or is an act outside a body.
    NoForm,
    /// The declared name is ill-formed, reserved or taken; or it is a second `until` or `intake`.
    BadName,
    /// A used name is not declared on an earlier line.
    UnknownName,
    /// A used name is of another kind than the form asks.
    OtherKind,
    /// A word in a number's place is no number, or out of its range.
    BadNumber,
    /// An earlier line submits the block or applies the strip, or the source has a handler or a cancellation block already.
    Repeated,
    /// The act is not allowed in a handler: it submits a block or waits.
    InHandler,
    /// The line passes a limit on files, objects, blocks, strips or acts; or a script or a file has more bytes than it may.
    PastLimit,
    /// It is a second `main`; or there is none, and the line is the number of lines plus one.
    NotOneMain,
}

impl Refusal {
    /// The code by which texts and answers name it, from 1 to 9.
    pub fn code(self) -> u8
        ensures { result ≡ refusal_code self }
    {
        match self {
            Refusal::NoForm => 1,
            Refusal::BadName => 2,
            Refusal::UnknownName => 3,
            Refusal::OtherKind => 4,
            Refusal::BadNumber => 5,
            Refusal::Repeated => 6,
            Refusal::InHandler => 7,
            Refusal::PastLimit => 8,
            Refusal::NotOneMain => 9,
        }
    }
}

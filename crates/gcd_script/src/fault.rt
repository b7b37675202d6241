// Why a text makes no plan.
ghost use Rattle.std.specs.Prelude.{◌≡◌};
ghost use Rattle.gcd_script.specs.Causes.{cause_code};
ghost use Rattle.gcd_script.specs.declared.fault.ParseFault.TheVariants.{Refused, Memory};

use crate::cause::Cause;
use std::alloc::AllocError;
use std::fmt;

/// Why a text makes no plan.
#[derive(Clone, Copy)]
pub enum ParseFault {
    /// The text is no script: the number of its first line at fault, from 1, the lowest code that applies to it
    /// ([`Cause::code`]), and the cause.
    Refused { line: u32, code: u8, cause: Cause },
    /// Memory ran out; nothing is known of the text.
    Memory,
}

impl ParseFault {
    /// Returns the refusal of the line of that number.
    pub fn refused(line: u32, cause: Cause) -> ParseFault
        ensures { result ≡ Refused line (cause_code cause) cause }
    {
        ParseFault::Refused {
            line,
            code: cause.code(),
            cause,
        }
    }
}

// The cause is left out: the code stands for it.
impl fmt::Debug for ParseFault {
    fn fmt<W: fmt::Write>(&self, f: &mut fmt::Formatter<W>) -> fmt::Result {
        match *self {
            ParseFault::Refused { line, code, .. } => write!(f, "line {line}, code {code}"),
            ParseFault::Memory => f.write_str("out of memory"),
        }
    }
}

impl From<AllocError> for ParseFault {
    ghost from_gives = { λ _ e. e ≡ Memory };

    fn from(_e: AllocError) -> ParseFault {
        ParseFault::Memory
    }
}

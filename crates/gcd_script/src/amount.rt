// What a form asks of a number.
ghost use Rattle.std.specs.Prelude.{◌≡◌};
ghost use Rattle.gcd_script.specs.Amounts.{least, most};

use gcd_plan::{MAX_BLOCKS, MAX_FILE_BYTES, MAX_INTAKE, MAX_TIME, MAX_VALUE};

/// What a number of a script counts, and so its range.
#[derive(Clone, Copy)]
pub enum Amount {
    /// A byte.
    Byte,
    /// Bytes of a file, or where they start.
    Extent,
    /// A due time in milliseconds, from 1.
    Time,
    /// The limit of a wait in milliseconds, from 0.
    Limit,
    /// A merged value, or the first value of a semaphore.
    Value,
    /// The blocks of an intake.
    Intake,
    /// The bytes that each block of a strip reads, from 1.
    Part,
    /// The blocks of a strip.
    Parts,
}

impl Amount {
    /// Returns the smallest such number.
    pub fn least(self) -> u32
        ensures { result ≡ least self }
    {
        match self {
            Amount::Byte => 0,
            Amount::Extent => 0,
            Amount::Time => 1,
            Amount::Limit => 0,
            Amount::Value => 0,
            Amount::Intake => 1,
            Amount::Part => 1,
            Amount::Parts => 0,
        }
    }

    /// Returns the greatest such number.
    pub fn most(self) -> u32
        ensures { result ≡ most self }
    {
        match self {
            Amount::Byte => 255,
            Amount::Extent => MAX_FILE_BYTES,
            Amount::Time => MAX_TIME,
            Amount::Limit => MAX_TIME,
            Amount::Value => MAX_VALUE,
            Amount::Intake => MAX_INTAKE,
            Amount::Part => MAX_FILE_BYTES,
            Amount::Parts => MAX_BLOCKS - 1,
        }
    }
}

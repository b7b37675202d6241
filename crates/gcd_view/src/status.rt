// How the program ends.

/// How the program ends (this project's own rules; the numbers are those of `gcd check`).
#[derive(Clone, Copy)]
pub enum Status {
    /// A run is shown.
    Shown,
    /// The words are no call of the program, or ask for help or the version.
    NoCall,
    /// The script is refused.
    ScriptRefused,
    /// The script or the journal cannot be read.
    Unread,
    /// Standard output or the file cannot be written.
    CutOff,
    /// Memory ran out.
    NoMemory,
    /// The journal is refused.
    JournalRefused,
}

impl Status {
    /// The number with which the program ends.
    pub fn code(self) -> u8 {
        match self {
            Status::Shown => 0,
            Status::NoCall => 2,
            Status::ScriptRefused => 3,
            Status::Unread => 5,
            Status::CutOff => 6,
            Status::NoMemory => 7,
            Status::JournalRefused => 9,
        }
    }
}

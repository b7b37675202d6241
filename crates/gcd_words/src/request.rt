// What the words ask for.

/// A run of a script.
#[derive(Clone, Copy, PartialEq, Eq)]
pub struct RunRequest<'a> {
    /// The name of the script on the shelf.
    pub script: &'a str,
    /// How many workers run it, from 1 to 64.
    pub workers: u8,
    /// Whether the journal is written before the report.
    pub journal: bool,
    /// How many events it may have, from 1 to 4,294,967,295.
    pub most: u32,
    /// The address at which connections are accepted, if one is given.
    pub listen: Option<&'a str>,
}

/// The judgement of a journal.
#[derive(Clone, Copy, PartialEq, Eq)]
pub struct CheckRequest<'a> {
    /// The name of the script on the shelf.
    pub script: &'a str,
    /// The name of the journal's text on the shelf.
    pub journal: &'a str,
}

/// A run of the large script.
#[derive(Clone, Copy, PartialEq, Eq)]
pub struct BigRequest {
    /// How many blocks it has beside `main`, from 1 to 16,384.
    pub count: u16,
    /// How many workers run it, from 1 to 64.
    pub workers: u8,
}

/// A run of a script beside threads that send jobs for its intake.
#[derive(Clone, Copy, PartialEq, Eq)]
pub struct FrontRequest<'a> {
    /// The name of the script on the shelf.
    pub script: &'a str,
    /// How many threads send jobs, from 1 to 8.
    pub senders: u8,
}

/// What the words ask for.
#[derive(Clone, Copy, PartialEq, Eq)]
pub enum Request<'a> {
    /// `run SCRIPT [--workers N] [--journal] [--most N] [--listen ADDR]`
    Run(RunRequest<'a>),
    /// `check SCRIPT JOURNAL`
    Check(CheckRequest<'a>),
    /// `big N [--workers W]`
    Big(BigRequest),
    /// `front SCRIPT SENDERS`
    Front(FrontRequest<'a>),
}

// What the words ask for.

use crate::stop::Stop;
use clap::{Arg, ArgAction, Command};
use std::alloc::{AllocError, Global};

/// A script and a journal to be shown.
#[derive(Clone, Copy)]
pub struct Request<'a> {
    /// The script's path.
    pub script: &'a str,
    /// The journal's path.
    pub journal: &'a str,
    /// Whether trace events are asked for, and not a picture.
    pub is_trace: bool,
    /// The path of the file to be written; None for standard output.
    pub out: Option<&'a str>,
}

// The command line.
fn command<'a>(alloc: Global) -> Result<Command<'a>, AllocError> {
    let script = Arg::new(alloc, "SCRIPT").required(true).help("The script");
    let journal = Arg::new(alloc, "JOURNAL")
        .required(true)
        .help("A journal of the script");
    let trace = Arg::new(alloc, "trace")
        .long("trace")
        .action(ArgAction::SetTrue)
        .help("Write trace events for Perfetto instead of a picture");
    let out = Arg::new(alloc, "FILE").short('o').help(
        "Write to FILE, whole or not at all, instead of standard output",
    );
    Command::new(alloc, "gcd-view")
        .no_binary_name(true)
        .version("1")
        .about("Draws the run that a journal records, as a page of SVG")
        .arg(script)?
        .arg(journal)?
        .arg(trace)?
        .arg(out)
}

/// What the words after the program's name ask for. `Words` comes if they are no call, or ask for help or the version, and `Memory` if
/// memory runs out.
pub fn read_words<'a>(alloc: Global, words: &'a [&'a str]) -> Result<Request<'a>, Stop<'a>> {
    let found = command(alloc)?.try_get_matches_from(words)?;
    Ok(Request {
        script: found.get_str("SCRIPT").unwrap_or(""),
        journal: found.get_str("JOURNAL").unwrap_or(""),
        is_trace: found.get_flag("trace"),
        out: found.get_str("FILE"),
    })
}

//! The words of the command line, read by the kit's `clap` (this project's own rules).
//!
//! | command | what it asks for ([`Request`]) |
//! |---|---|
//! | `run SCRIPT [--workers N] [--journal] [--most N] [--listen ADDR]` | a run of the script; by at most N workers, from 1 to 64, 1 where it is absent; of at most N events, from 1 to 4,294,967,295, which is the number where it is absent |
//! | `check SCRIPT JOURNAL` | the judgement of a journal |
//! | `big N [--workers W]` | a run of the large script with N blocks, from 1 to 16,384 |
//! | `front SCRIPT SENDERS` | a run of the script beside so many threads that send jobs for its intake, from 1 to 8 |
//!
//! The model of the words is a list of texts. `request_of` says what they ask for: None exactly where `clap` finds a fault in
//! them (`fault_of` of `clap`, over the command line of `gcd_app`; a call for help is one) or they name no command. A second
//! clause says that words which `clap` takes (`takes`) and which name a command are never refused.
//!
//! | call | answer |
//! |---|---|
//! | [`read_words`] | what the words ask for (`request_of`), or out of memory |
//!
//! A number is read as `clap` reads it: one leading `+` and leading zeros are dropped. Nothing is said of the texts that `clap`
//! would print; none is used.
#![tactic(auto)]

mod command_line;
mod reading;
mod request;

pub use reading::read_words;
pub use request::{BigRequest, CheckRequest, FrontRequest, Request, RunRequest};

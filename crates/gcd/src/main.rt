//! The program: the words of the command line, the real files and standard output, and the status with which it ends.
//!
//! What it does and answers is `gcd_run::account_of`, over the system's files, its standard output, its sockets and its clock. Standard
//! error then says why it ended so, in the words of `gcd_why`, by the plan and the machine that the call hands on. If memory runs out for
//! that, it says no more, and the status stays as it was.
//!
//! The helpers that touch the system promise nothing: no contract says what the words of a command line are, what its files
//! hold, or with which status a program ends. So `words_of` and `main` have no clauses, and of the look-up beside the
//! script (`ScriptShelf` for files, `ScriptPoller` for feeds) only what each shelf and poller promises is proved. What is
//! proved beside it is that the texts handed to `account_of` are the words that were read (`texts`); the rest is tried by the
//! stored run and the examples.
//!
//! Where an item names no manual page, what it says is this project's own rule.
#![tactic(auto)]

ghost use Rattle.std.specs.Prelude.{◌≡◌, ℕ, false, map, string_bytes, IfOk, IfSome};

mod folders;
mod missed;
mod saying;
mod script_poller;
mod script_shelf;
mod waiting_clock;

use crate::saying::{Call, say_ended, say_status};
use crate::script_poller::ScriptPoller;
use crate::script_shelf::ScriptShelf;
use crate::waiting_clock::WaitingClock;
use gcd_outer::Poller;
use gcd_run::{Status, account_of};
use gcd_system::{NetPoller, StdoutSink, SystemClock};
use gcd_words::{Request, read_words};
use std::alloc::{AllocError, Global};
use std::fs::File;
use std::io::IsTerminal;
use std::process::ExitCode;
use std::rt::{Env, Files, Net};
use std::{env, io};

// The words after the program's name.
fn words_of<R: Env + AllocGlobal>(rt: &R) -> io::Result<Vec<String>> {
    let mut words = Vec::new(rt.alloc());
    for word in env::args(rt)?.skip(1) {
        words.push(word)?;
    }
    Ok(words)
}

// The words as texts, each in its place.
fn texts<'a>(alloc: Global, words: &'a [String]) -> Result<Vec<&'a str>, AllocError>
    ensures { IfOk result (λ v. map (λ text. text.now) v.items ≡ map string_bytes words.entry.now) }
{
    let mut texts = Vec::with_capacity(alloc, words.len())?;
    for word in words {
        texts.push(word.as_str())?;
    }
    Ok(texts)
}

// A poller of the feeds that the script names, which says that it waits if a person watches. None where memory ran out.
fn poller_of<'a, R: Files<File = File> + Net + Eprint>(
    rt: &'a R,
    alloc: Global,
    script: &'a str,
    is_watched: bool,
) -> Option<ScriptPoller<'a, R, NetPoller<'a, R>>>
    ensures { IfSome result (λ p. (feed : ℕ) → (⟦<ScriptPoller<'a, R, NetPoller<'a, R>> as Poller>⟧.state p).watched feed ≡ false) }
{
    let Ok(feeds) = NetPoller::new(rt, alloc) else {
        return None;
    };
    Some(ScriptPoller::new(rt, alloc, feeds, script, is_watched))
}

// The script's name, and how many contents are kept for the sentences at the end: the script, and the journal that is judged.
fn kept_of<'a>(request: Option<Request<'a>>) -> (&'a str, usize) {
    match request {
        Some(Request::Run(request)) => (request.script, 1),
        Some(Request::Check(request)) => (request.script, 2),
        Some(Request::Big(_)) => ("", 0),
        Some(Request::Front(request)) => (request.script, 1),
        None => ("", 0),
    }
}

// The words; none where they are no text, so that they name no command. An `Err` comes only where memory runs out.
fn words_or_none<R: Env + AllocGlobal>(rt: &R) -> Result<Vec<String>, AllocError> {
    match words_of(rt) {
        Ok(words) => Ok(words),
        Err(error) if error.kind() == io::ErrorKind::OutOfMemory => Err(AllocError),
        Err(_) => Ok(Vec::new(rt.alloc())),
    }
}

// What is said, and what is answered, where memory runs out before the call.
fn without_memory<R: Eprint>(rt: &R) -> ExitCode {
    ExitCode::from(say_status(rt, Status::NoMemory))
}

// Does what the words ask for, and says why it ended as it did. What goes to the thread of a pool beside senders is of the system's
// runtime itself: a function for any runtime could not send its poller there.
fn main(rt: HostRuntime) -> ExitCode {
    let Ok(words) = words_or_none(&rt) else {
        return without_memory(&rt);
    };
    let Ok(texts) = texts(rt.alloc(), &words) else {
        return without_memory(&rt);
    };
    let Ok(request) = read_words(rt.alloc(), &texts) else {
        return without_memory(&rt);
    };
    let (script, keeps) = kept_of(request);
    let mut shelf = ScriptShelf::new(&rt, rt.alloc(), script, keeps);
    let mut out = StdoutSink::new(&rt);
    let is_watched = rt.stderr().is_terminal();
    let Some(mut poller) = poller_of(&rt, rt.alloc(), script, is_watched) else {
        return without_memory(&rt);
    };
    let mut clock = WaitingClock::new(&rt, SystemClock::new(&rt), is_watched);
    let account = account_of(
        &rt,
        rt.alloc(),
        &texts,
        &mut shelf,
        &mut out,
        &mut poller,
        &mut clock,
    );
    let call = Call {
        words: &texts,
        request,
        account: &account,
    };
    match shelf.missed() {
        Some(missed) => say_ended(&rt, rt.alloc(), call, &shelf, Some(missed)),
        None => say_ended(&rt, rt.alloc(), call, &shelf, poller.missed()),
    }
    ExitCode::from(account.ended.status)
}

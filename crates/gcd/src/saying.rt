// What is said on standard error, once the call has ended.

use crate::missed::Missed;
use crate::script_shelf::ScriptShelf;
use gcd_plan::MAX_EVENTS;
use gcd_run::{Account, Found, Status};
use gcd_why::{
    CUT_OFF, Judged, NO_INTAKE, NO_MEMORY, NO_MEMORY_OR_THREAD, RunEnd, Sentence, Unread,
    line_of_feed, why_ended, why_event, why_journal, why_script, why_words,
};
use gcd_words::{CheckRequest, Request};
use std::alloc::Global;
use std::fmt::Display;
use std::rt::Files;

// Says a line. What cannot be written is not said.
fn say<R: Eprint, T: Display>(rt: &R, said: &T) {
    let _ = eprintln!(rt; "{said}");
}

// Says a text.
fn say_text<R: Eprint>(rt: &R, said: &str) {
    let _ = eprintln!(rt; "{said}");
}

/// Says that the output was cut off or that memory ran out, where the status is one of these, and gives its number.
pub fn say_status<R: Eprint>(rt: &R, status: Status) -> u8 {
    match status {
        Status::CutOff => say_text(rt, CUT_OFF),
        Status::NoMemory => say_text(rt, NO_MEMORY),
        Status::Drained | Status::Stuck | Status::NoCommand | Status::ScriptRefused => {}
        Status::Misused | Status::Unread | Status::Full | Status::JournalRefused => {}
        Status::NoIntake => {}
    }
    status.code()
}

// Why a run of the script, of at most so many events, ended as it did.
fn say_run<R: Eprint>(
    rt: &R,
    alloc: Global,
    most: u32,
    name: &str,
    script: &[u8],
    account: &Account,
) {
    let Found::Run { plan, machine } = &account.found else {
        return;
    };
    let end = RunEnd {
        plan,
        machine,
        events: account.ended.journal.as_slice(),
        most,
    };
    if let Ok(said) = why_ended(alloc, end, name, script) {
        for sentence in said.as_slice() {
            say(rt, sentence);
        }
    }
}

// Why an event of a journal is refused.
fn say_event<R: Eprint>(rt: &R, alloc: Global, name: &str, index: u32, account: &Account) {
    let Found::Run { plan, machine } = &account.found else {
        return;
    };
    let judged = Judged {
        plan,
        machine,
        events: account.ended.journal.as_slice(),
        index,
    };
    if let Ok(Some(said)) = why_event(alloc, judged, name) {
        say(rt, &said.sentence);
    }
}

// Why a script or a journal is refused, at that place.
fn say_refused<R: Eprint + Files>(
    rt: &R,
    alloc: Global,
    request: Request,
    account: &Account,
    at: (u32, u32),
    shelf: &ScriptShelf<R>,
) {
    let (script, journal) = match request {
        Request::Run(request) => (request.script, ""),
        Request::Check(CheckRequest { script, journal }) => (script, journal),
        Request::Big(_) => return,
        Request::Front(request) => (request.script, ""),
    };
    let nothing = b"".as_slice();
    let said = match account.found {
        Found::Script(cause) => {
            let text = shelf.kept(0).unwrap_or(nothing);
            why_script(alloc, script, text, at.0, cause)
        }
        Found::Journal(cause) => {
            let text = shelf.kept(1).unwrap_or(nothing);
            why_journal(alloc, MAX_EVENTS, journal, text, at.0, cause)
        }
        Found::Run { .. } => return say_event(rt, alloc, journal, at.0, account),
        Found::Nothing | Found::Unread { .. } => return,
    };
    if let Ok(sentence) = said {
        say(rt, &sentence);
    }
}

// Why the words ended as they did, if they name a command.
fn say_request<R: Eprint + Files>(
    rt: &R,
    alloc: Global,
    request: Request,
    account: &Account,
    shelf: &ScriptShelf<R>,
) {
    if let Some(at) = account.ended.at {
        return say_refused(rt, alloc, request, account, at, shelf);
    }
    let (name, most) = match request {
        Request::Run(request) => (request.script, request.most),
        Request::Check(request) => (request.script, MAX_EVENTS),
        Request::Big(_) => return,
        Request::Front(request) => (request.script, MAX_EVENTS),
    };
    if account.ended.status == Status::NoIntake.code() {
        if let Ok(sentence) = Sentence::of(alloc, name, 0, NO_INTAKE) {
            say(rt, &sentence);
        }
        return;
    }
    if let Some(script) = shelf.kept(0) {
        say_run(rt, alloc, most, name, script, account);
    }
}

/// A call that has ended.
#[derive(Clone, Copy)]
pub struct Call<'a> {
    /// The words.
    pub words: &'a [&'a str],
    /// What the words ask for.
    pub request: Option<Request<'a>>,
    /// What the call answered, and what it found out.
    pub account: &'a Account,
}

// The line of the script that names what could not be read; 0 if none does.
fn line_of<R: Files + Eprint>(account: &Account, shelf: &ScriptShelf<R>, unread: Unread) -> u32 {
    match (unread, &account.found) {
        (Unread::File { .. }, Found::Unread { line }) => *line,
        (Unread::Feed { path, .. }, Found::Run { plan, .. }) => {
            line_of_feed(plan, shelf.kept(0).unwrap_or(b"".as_slice()), path)
        }
        _ => 0,
    }
}

// Says what could not be read, on the line of the script that names it, if one does.
fn say_unread<R: Eprint + Files>(
    rt: &R,
    alloc: Global,
    call: Call,
    shelf: &ScriptShelf<R>,
    unread: Unread,
) {
    let name = match call.request {
        Some(Request::Run(request)) => request.script,
        Some(Request::Front(request)) => request.script,
        Some(Request::Check(_)) | Some(Request::Big(_)) | None => "",
    };
    let line = line_of(call.account, shelf, unread);
    if line > 0 {
        if let Ok(sentence) = Sentence::of(alloc, name, line, unread) {
            return say(rt, &sentence);
        }
    }
    say(rt, &unread);
}

// What was wanting, if memory or threads were: a call with one worker asks for no thread.
fn wanting(request: Option<Request>) -> &'static str {
    match request {
        Some(Request::Run(request)) if request.workers > 1 => NO_MEMORY_OR_THREAD,
        Some(Request::Big(request)) if request.workers > 1 => NO_MEMORY_OR_THREAD,
        Some(Request::Front(_)) => NO_MEMORY_OR_THREAD,
        _ => NO_MEMORY,
    }
}

/// Says why the call ended as it did. If memory runs out, it says no more.
pub fn say_ended<R: Eprint + Files>(
    rt: &R,
    alloc: Global,
    call: Call,
    shelf: &ScriptShelf<R>,
    missed: Option<&Missed>,
) {
    let status = call.account.ended.status;
    if status == Status::CutOff.code() {
        say_text(rt, CUT_OFF);
    } else if status == Status::NoMemory.code() {
        say_text(rt, wanting(call.request));
    } else if status == Status::NoCommand.code() {
        say(rt, &why_words(call.words));
    } else if status == Status::Unread.code() {
        if let Some(missed) = missed {
            say_unread(rt, alloc, call, shelf, missed.unread());
        }
    } else if let Some(request) = call.request {
        say_request(rt, alloc, request, call.account, shelf);
    }
}

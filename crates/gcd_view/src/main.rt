//! The program that shows a run: a script and a journal of it as a picture, or as a trace.
//!
//! `gcd-view SCRIPT JOURNAL [--trace] [-o FILE]` loads the script and reads its plan (`gcd_script`), loads the journal, reads and judges
//! it (`gcd_journal`), and writes the page of SVG or, with `--trace`, the trace events (`gcd_picture`). It writes them to FILE, whole or
//! not at all, or else to standard output, where nothing else ever goes but what `--help` and `--version` ask for. On standard error it
//! says what `gcd check` says of the script and the journal.
//!
//! | status | comes | standard error |
//! |---|---|---|
//! | 0 | the events are lawful | why the run has come to its state |
//! | 2 | the words are no such call, or ask for help or the version | what is wrong with the words |
//! | 3 | the script is no script, or longer than its limit | why it is refused |
//! | 5 | the script or the journal cannot be read | which one, and what the system said |
//! | 6 | standard output or FILE cannot be written | that, and what the system said of FILE |
//! | 7 | memory ran out | that |
//! | 9 | the journal is none or longer than its limit, or an event of it is not permitted | why it is refused |
//!
//! Proved is that only events that are lawful in the plan by which they are shown are shown (`load_run`), and of what the picture is
//! made that the marks are those of its runs (`gcd_timeline::marks`), and that the blocks that it calls submitted or not submitted are
//! so by the definitions (`gcd_timeline::standings`). That this is the script's plan, and these the journal's events, is tested. The
//! real files and standard output tell nothing, so what is read and written is tried by tests over a shelf in memory
//! (`gcd_view_tests`) and by the stored run alone.
//!
//! Where an item names no manual page, what it says is this project's own rule.
#![tactic(auto)]

mod loading;
mod output;
mod request;
mod showing;
mod status;
mod stop;

use crate::output::write_file;
use crate::request::read_words;
use crate::showing::{Shown, show};
use crate::status::Status;
use crate::stop::Stop;
use gcd_outer::write_whole;
use gcd_system::{FileShelf, StdoutSink};
use gcd_why::{CUT_OFF, Sentence, Unread};
use std::alloc::{AllocError, Global};
use std::io::Read;
use std::process::ExitCode;
use std::rt::{Env, Files};
use std::{env, fs, io};

// The words after the program's name.
fn words_of<R: Env + AllocGlobal>(rt: &R) -> io::Result<Vec<String>> {
    let mut words = Vec::new(rt.alloc());
    for word in env::args(rt)?.skip(1) {
        words.push(word)?;
    }
    Ok(words)
}

// The words as texts, each in its place.
fn texts(alloc: Global, words: &[String]) -> Result<Vec<&str>, AllocError> {
    let mut texts = Vec::with_capacity(alloc, words.len())?;
    for word in words {
        texts.push(word.as_str())?;
    }
    Ok(texts)
}

// Writes the text to the file of this path. Says why that fails, if it does.
fn write_to<R: Files + Eprint + AllocGlobal>(rt: &R, path: &str, text: &str) -> Status {
    match write_file(rt, rt.alloc(), path, text) {
        Ok(()) => Status::Shown,
        Err(error) => {
            if let Ok(text) = format!(in rt.alloc(); "the file cannot be written: {error}") {
                let sentence = Sentence {
                    file: path,
                    line: 0,
                    text,
                };
                let _ = eprintln!(rt; "{sentence}");
            }
            Status::CutOff
        }
    }
}

// Writes the text to standard output. Says so if that fails.
fn write_out<R: Print + Eprint>(rt: &R, text: &str) -> Status {
    match write_whole(&mut StdoutSink::new(rt), text.as_bytes()) {
        Ok(()) => Status::Shown,
        Err(_) => {
            let _ = eprintln!(rt; "{CUT_OFF}");
            Status::CutOff
        }
    }
}

// Why the file of this path cannot be read; empty if it now can.
fn reason<R: Files + AllocGlobal>(rt: &R, path: &str) -> Result<String, AllocError> {
    let read = match fs::open(rt, path) {
        Ok(mut file) => file.read(&mut [0u8; 1]),
        Err(error) => Err(error),
    };
    match read {
        Ok(_) => Ok(String::new(rt.alloc())),
        Err(error) => format!(in rt.alloc(); "{error}"),
    }
}

// Says why nothing is shown. What help and the version say goes to standard output.
fn say<R: Files + Print + Eprint + AllocGlobal>(rt: &R, stop: Stop) -> Status {
    let _ = match &stop {
        Stop::Words(error) => error.print(rt),
        Stop::Unread { path } => {
            let said = reason(rt, path).unwrap_or(String::new(rt.alloc()));
            let unread = Unread::File {
                path,
                said: said.as_str(),
            };
            eprintln!(rt; "{unread}")
        }
        _ => eprintln!(rt; "{stop}"),
    };
    stop.status()
}

// Writes what is shown where the words ask for it. Then says what is said of it.
fn tell<R: Files + Print + Eprint + AllocGlobal>(
    rt: &R,
    out: Option<&str>,
    shown: &Shown,
) -> Status {
    let text = shown.text.as_str();
    let status = match out {
        Some(path) => write_to(rt, path, text),
        None => write_out(rt, text),
    };
    if matches!(status, Status::Shown) {
        for sentence in &shown.said {
            let _ = eprintln!(rt; "{sentence}");
        }
    }
    status
}

// Does what the words ask for.
fn answer<R: Files + Print + Eprint + AllocGlobal>(rt: &R, words: &[&str]) -> Status {
    let request = match read_words(rt.alloc(), words) {
        Ok(request) => request,
        Err(stop) => return say(rt, stop),
    };
    match show(rt.alloc(), &mut FileShelf::new(rt), request) {
        Ok(shown) => tell(rt, request.out, &shown),
        Err(stop) => say(rt, stop),
    }
}

// Reads the words, and does what they ask for.
fn run<R: Files + Print + Eprint + Env + AllocGlobal>(rt: &R) -> Status {
    let words = match words_of(rt) {
        Ok(words) => words,
        Err(error) if error.kind() == io::ErrorKind::OutOfMemory => return say(rt, Stop::Memory),
        Err(_) => {
            let _ = eprintln!(rt; "gcd-view: a word is not valid UTF-8");
            return Status::NoCall;
        }
    };
    match texts(rt.alloc(), &words) {
        Ok(texts) => answer(rt, &texts),
        Err(AllocError) => say(rt, Stop::Memory),
    }
}

fn main(rt: HostRuntime) -> ExitCode {
    ExitCode::from(run(&rt).code())
}

// Reading the words.
ghost use Rattle.std.specs.Prelude.{◌≡◌, ◌<◌, ◌≤◌, IfOk, IfSome, is_some, map, option_map, true};
ghost use Rattle.clap.specs.Words.{first_of, found_of, rows_of, subcommand_rows_of};
ghost use Rattle.gcd_plan.specs.Limits.{max_events, max_workers};
ghost use Rattle.gcd_words.specs.Asked.{AreTaken, IsInRange, asked_by, big_in, check_in, front_in, number_or_zero, request_of, most_in, run_in, value_in, within, workers_in};
ghost use Rattle.gcd_words.specs.Requests.{asked_of};

use crate::command_line::{MAX_BIG, MAX_FRONT_SENDERS, gcd};
use crate::request::{BigRequest, CheckRequest, FrontRequest, Request, RunRequest};
use clap::ArgMatches;
use clap::error::ErrorKind;
use gcd_plan::{MAX_EVENTS, MAX_WORKERS};
use std::alloc::{AllocError, Global};

fn number(text: &str) -> u32
    ensures { result ≡ number_or_zero text.now }
{
    text.parse::<u32>().unwrap_or(0)
}

// The number of a text that the parser has found in the range.
fn in_range(text: &str, most: u32) -> u32
    requires { 0 < most }
    ensures value { result ≡ within most text.now }
    ensures some { 0 < result }
    ensures few { result ≤ most }
{
    number(text).max(1).min(most)
}

// The first value of an argument, as text.
fn first<'a>(found: &ArgMatches<'a>, id: &str) -> Option<&'a str>
    ensures { option_map (λ s. s.now) result ≡ first_of id.now (rows_of (found_of found.now)) }
{
    found.get_str(id)
}

fn workers(found: &ArgMatches) -> u8
    ensures value { result ≡ workers_in (rows_of (found_of found.now)) }
    ensures some { 0 < result }
    ensures few { result ≤ max_workers }
{
    match first(found, "workers") {
        Some(text) => in_range(text, MAX_WORKERS) as u8,
        None => 1,
    }
}

fn most(found: &ArgMatches) -> u32
    ensures value { result ≡ most_in (rows_of (found_of found.now)) }
    ensures some { 0 < result }
    ensures few { result ≤ max_events }
{
    match first(found, "most") {
        Some(text) => in_range(text, MAX_EVENTS),
        None => MAX_EVENTS,
    }
}

fn value<'a>(found: &ArgMatches<'a>, id: &str) -> &'a str
    ensures { result.now ≡ value_in id.now (rows_of (found_of found.now)) }
{
    match first(found, id) {
        Some(text) => text,
        None => "",
    }
}

fn run<'a>(found: &ArgMatches<'a>) -> Request<'a>
    ensures asked { asked_of result ≡ run_in (rows_of (found_of found.now)) }
    ensures range { IsInRange (asked_of result) }
{
    Request::Run(RunRequest {
        script: value(found, "SCRIPT"),
        workers: workers(found),
        journal: value(found, "journal") == "true",
        most: most(found),
        listen: first(found, "listen"),
    })
}

fn check<'a>(found: &ArgMatches<'a>) -> Request<'a>
    ensures asked { asked_of result ≡ check_in (rows_of (found_of found.now)) }
    ensures range { IsInRange (asked_of result) }
{
    Request::Check(CheckRequest {
        script: value(found, "SCRIPT"),
        journal: value(found, "JOURNAL"),
    })
}

fn big<'a>(found: &ArgMatches<'a>) -> Request<'a>
    ensures asked { asked_of result ≡ big_in (rows_of (found_of found.now)) }
    ensures range { IsInRange (asked_of result) }
{
    Request::Big(BigRequest {
        count: in_range(value(found, "N"), MAX_BIG as u32) as u16,
        workers: workers(found),
    })
}

fn front<'a>(found: &ArgMatches<'a>) -> Request<'a>
    ensures asked { asked_of result ≡ front_in (rows_of (found_of found.now)) }
    ensures range { IsInRange (asked_of result) }
{
    Request::Front(FrontRequest {
        script: value(found, "SCRIPT"),
        senders: in_range(value(found, "SENDERS"), u32::from(MAX_FRONT_SENDERS)) as u8,
    })
}

fn asked<'a>(matches: &ArgMatches<'a>) -> Option<Request<'a>>
    ensures asked { option_map asked_of result ≡ option_map asked_by (subcommand_rows_of matches.now) }
    ensures range { IfSome result (λ r. IsInRange (asked_of r)) }
{
    let (name, found) = matches.subcommand()?;
    if name == "run" {
        return Some(run(found));
    }
    if name == "check" {
        return Some(check(found));
    }
    if name == "big" {
        return Some(big(found));
    }
    Some(front(found))
}

/// Reads the words after the program's name. The numbers of a
/// request are in their ranges. `None` exactly where the parser refuses them for another cause than memory, a
/// call for help among these, or they name no command; an `Err` comes only where memory runs out.
pub fn read_words<'a>(
    alloc: Global,
    words: &'a [&'a str],
) -> Result<Option<Request<'a>>, AllocError>
    ensures exact { IfOk result (λ r. option_map asked_of r ≡ request_of (map (λ w. w.now) words.entry.now)) }
    ensures range { IfOk result (λ r. IfSome r (λ q. IsInRange (asked_of q))) }
    ensures taken { IfOk result (λ r. AreTaken (map (λ w. w.now) words.entry.now) → is_some r ≡ true) }
{
    match gcd(alloc)?.try_get_matches_from(words) {
        Ok(matches) => Ok(asked(&matches)),
        Err(error) => match error.kind() {
            ErrorKind::OutOfMemory => Err(AllocError),
            _ => Ok(None),
        },
    }
}

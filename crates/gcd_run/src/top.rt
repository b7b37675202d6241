// The top calls.
ghost use Rattle.std.specs.Prelude.{◌≡◌, ℕ, true, false, is_some, IfOk, OnErr};
ghost use Rattle.gcd_outer.specs.Outside.{seen};
ghost use Rattle.gcd_commands.specs.Calls.{inputs};
ghost use Rattle.gcd_run.specs.Always.{Always};
ghost use Rattle.gcd_run.specs.Statuses.{StatusSays};
ghost use Rattle.gcd_commands.specs.declared.status.Status.TheVariants.{NoCommand};
ghost use Rattle.gcd_words.specs.Asked.{AreTaken, request_of};
ghost use Rattle.gcd_run.specs.Ends.{CallEnds, HasStatus, IsWritten, WordsBegin, WordsTell, outside, texts};
ghost use Rattle.gcd_run.specs.Hands.{AskedHands, HandsOn};
ghost use Rattle.gcd_commands.specs.Stories.{end_of};

use crate::ended::{Account, Ended};
use gcd_commands::{Found, Status, Story, tell_check, tell_front, tell_large, tell_run};
use gcd_outer::{Clock, Poller, Shelf, Sink, write_whole};
use gcd_words::{Request, read_words};
use std::alloc::{AllocError, Global};
use std::sync::Wait;
use std::thread::Threads;

// What is told at the words. An `Err` comes where memory runs out.
fn tell<R: Threads + Wait + Sync, S: Shelf, P: Poller + Send, C: Clock + Send>(
    rt: &R,
    alloc: Global,
    words: &[&str],
    shelf: &mut S,
    poller: &mut P,
    clock: &mut C,
) -> Result<Story, AllocError>
    requires unwatched { (feed : ℕ) → (P.state poller.old).watched feed ≡ false }
    ensures reported { IfOk result (λ s. WordsTell (inputs S.Shelf shelf.old shelf.new P.Poller poller.old poller.new C.Clock clock.old clock.new) (texts words.now) (end_of s)) }
    ensures taken { IfOk result (λ s. AreTaken (texts words.now) → is_some (request_of (texts words.now)) ≡ true) }
    ensures found { IfOk result (λ s. AskedHands (inputs S.Shelf shelf.old shelf.new P.Poller poller.old poller.new C.Clock clock.old clock.new) (request_of (texts words.now)) (end_of s) s.found) }
    ensures wanting { OnErr result (WordsBegin (inputs S.Shelf shelf.old shelf.new P.Poller poller.old poller.new C.Clock clock.old clock.new) (texts words.now)) }
{
    match read_words(alloc, words)? {
        None => Story::usage(alloc),
        Some(Request::Run(request)) => tell_run(rt, alloc, request, shelf, poller, clock),
        Some(Request::Check(request)) => tell_check(alloc, request, shelf),
        Some(Request::Big(request)) => tell_large(rt, alloc, request, poller, clock),
        Some(Request::Front(request)) => tell_front(rt, alloc, request, shelf, poller, clock),
    }
}

// Writes the text, whole if the sink does not fail.
fn write_story<K: Sink>(out: &mut K, story: Story) -> Account
    ensures written { IsWritten (seen K.tells K.state out.old out.new) (end_of story) result.ended }
    ensures found { result.found ≡ story.found }
{
    let written = write_whole(out, story.text.as_slice());
    let status = match written {
        Ok(()) => story.status,
        Err(_) => Status::CutOff,
    };
    let ended = Ended {
        status: status.code(),
        journal: story.journal,
        at: story.at,
    };
    Account {
        ended,
        found: story.found,
    }
}

/// Does what the words ask for: `run SCRIPT [--workers N] [--journal] [--most N] [--listen ADDR]`, `check SCRIPT JOURNAL`,
/// `big N [--workers W]`, `front SCRIPT SENDERS`. They are the words after the program's name; scripts, files and journals are names on the shelf.
///
/// | [`Status`], code | comes | text |
/// |---|---|---|
/// | `Drained`, 0 | the run drained; `check`: the events are lawful | the report, after `front` a line for each sender and its last line; `lawful N STATE` |
/// | `Stuck`, 1 | the run is stuck | the report |
/// | `NoCommand`, 2 | the parser of words refuses them, help among these, or they name no command | the usage line |
/// | `ScriptRefused`, 3 | the script is no script, or it or a file of it is longer than its limit; `at` is the line and the code | `script refused: line L code C` |
/// | `Misused`, 4 | the run's last event is a misuse | the report |
/// | `Unread`, 5 | the shelf or the poller failed in the call, or the shelf tells and lacks a name | `read fault`, after a run as the report's last line |
/// | `CutOff`, 6 | the sink failed in the call | a proper prefix of the text |
/// | `NoMemory`, 7 | memory ran out, or the system made no thread for a worker of a long run | nothing |
/// | `Full`, 8 | the run has as many events as it may have, `--most`, and goes on | the report |
/// | `JournalRefused`, 9 | `check`: the text is no journal or is too long, and `at` is the line and 1; or an event is not permitted, and `at` is its index and 2 | `journal refused: line L`, `journal refused: event I` |
/// | `NoIntake`, 10 | `front`: the script has no intake | `no intake` |
///
/// Each is judged at its step, where no earlier step ended the call. No feed of the poller is watched yet. `journal` is that of
/// the run or, for `check`, the one that was read. It may wait for others.
pub fn gcd_main<R: Threads + Wait + Sync, S: Shelf, K: Sink, P: Poller + Send, C: Clock + Send>(
    rt: &R,
    alloc: Global,
    words: &[&str],
    shelf: &mut S,
    out: &mut K,
    poller: &mut P,
    clock: &mut C,
) -> Ended
    requires unwatched { (feed : ℕ) → (P.state poller.old).watched feed ≡ false }
    // How the call ends: one relation, with a rule for each way, which counts the calls on the outside.
    ensures ended { CallEnds (outside S.Shelf shelf.old shelf.new P.Poller poller.old poller.new C.Clock clock.old clock.new K.Sink out.old out.new) (texts words.now) result }

    // What the status that it answers says.
    ensures says { StatusSays (outside S.Shelf shelf.old shelf.new P.Poller poller.old poller.new C.Clock clock.old clock.new K.Sink out.old out.new) (texts words.now) result }

    // Words that name a command, and that the parser takes, are never answered by the usage line.
    ensures named { HasStatus result NoCommand → AreTaken (texts words.now) → ⊥ }

    // What has to be told.
    ensures always { Always (outside S.Shelf shelf.old shelf.new P.Poller poller.old poller.new C.Clock clock.old clock.new K.Sink out.old out.new) (texts words.now) result }
{
    account_of(rt, alloc, words, shelf, out, poller, clock).ended
}

/// Does what [`gcd_main`] does, and hands on what it found out: the plan of the script, and the machine that stands for the journal, or, if an
/// event of a journal is not permitted, for those before it. Of a refused script or journal it hands on the cause that the parser or the
/// reader told, and of a file that cannot be read the script's line. So no caller parses, reads or replays anything again to tell why.
pub fn account_of<R: Threads + Wait + Sync, S: Shelf, K: Sink, P: Poller + Send, C: Clock + Send>(
    rt: &R,
    alloc: Global,
    words: &[&str],
    shelf: &mut S,
    out: &mut K,
    poller: &mut P,
    clock: &mut C,
) -> Account
    requires unwatched { (feed : ℕ) → (P.state poller.old).watched feed ≡ false }
    ensures ended { CallEnds (outside S.Shelf shelf.old shelf.new P.Poller poller.old poller.new C.Clock clock.old clock.new K.Sink out.old out.new) (texts words.now) result.ended }
    ensures says { StatusSays (outside S.Shelf shelf.old shelf.new P.Poller poller.old poller.new C.Clock clock.old clock.new K.Sink out.old out.new) (texts words.now) result.ended }
    ensures named { HasStatus result.ended NoCommand → AreTaken (texts words.now) → ⊥ }
    ensures always { Always (outside S.Shelf shelf.old shelf.new P.Poller poller.old poller.new C.Clock clock.old clock.new K.Sink out.old out.new) (texts words.now) result.ended }
    // What it hands on, by what the words ask for.
    ensures found { HandsOn (outside S.Shelf shelf.old shelf.new P.Poller poller.old poller.new C.Clock clock.old clock.new K.Sink out.old out.new) (texts words.now) result }
{
    match tell(rt, alloc, words, shelf, poller, clock) {
        Ok(story) => write_story(out, story),
        Err(AllocError) => {
            let ended = Ended {
                status: Status::NoMemory.code(),
                journal: Vec::new(alloc),
                at: None,
            };
            Account {
                ended,
                found: Found::Nothing,
            }
        }
    }
}

// What a command tells.
ghost use Rattle.std.specs.Prelude.{◌≡◌, ℕ, List, Some, IfOk};
ghost use Rattle.gcd_commands.specs.End.{state_word};

use crate::found::Found;
use crate::status::Status;
use crate::stop::Stop;
use gcd_event::Entry;
use gcd_history::State;
use std::alloc::{AllocError, Global};

/// What a command tells: how the call ends, before anything is written, and what the command found out.
#[derive(Drop)]
pub struct Story {
    /// The status with which the call ends if the text can be written.
    pub status: Status,
    /// The journal of the run, or the one that was judged; empty if nothing ran or was read.
    pub journal: Vec<Entry>,
    /// If a script is refused, the line, from 1, and the code; line 0 is the script as a whole. If a journal is refused, the line
    /// and 1, or the index of the event, from 0, and 2.
    pub at: Option<(u32, u32)>,
    /// The text to write, whole.
    pub text: Vec<u8>,
    /// What the command found out.
    pub found: Found,
}

/// The bytes of a text.
pub fn bytes_of(alloc: Global, text: &str) -> Result<Vec<u8>, AllocError>
    ensures { IfOk result (λ bytes. bytes.items ≡ text.now) }
{
    Vec::from_slice(alloc, text.as_bytes())
}

impl Story {
    ghost use Rattle.gcd_commands.specs.Stories.{end_of};
    ghost use Rattle.gcd_commands.specs.Hands.{found_of};
    ghost use Rattle.gcd_commands.specs.declared.found.Found.TheVariants.{Nothing};
    ghost use Rattle.gcd_commands.specs.End.{plain_end, usage_end, read_fault, refused_end, no_journal_end, no_intake_end, stop_end, ran_end, lawful_end, unlawful_end};

    fn plain(alloc: Global, status: Status, text: &str, found: Found) -> Result<Self, AllocError>
        ensures told { IfOk result (λ s. end_of s ≡ plain_end status text.now) }
        ensures found { IfOk result (λ s. s.found ≡ found) }
    {
        Ok(Story {
            status,
            journal: Vec::new(alloc),
            at: None,
            text: bytes_of(alloc, text)?,
            found,
        })
    }

    /// Tells the usage line, with `NoCommand`: what a call answers if its words name no command. Returns `Err` if memory runs out.
    pub fn usage(alloc: Global) -> Result<Self, AllocError>
        ensures told { IfOk result (λ s. end_of s ≡ usage_end) }
        ensures found { IfOk result (λ s. s.found ≡ Nothing) }
    {
        Story::plain(
            alloc,
            Status::NoCommand,
            "usage: gcd run SCRIPT [--workers N] [--journal] [--most N] [--listen ADDR] | gcd check SCRIPT JOURNAL | gcd big N [--workers W] | gcd front SCRIPT SENDERS\n",
            Found::Nothing,
        )
    }

    fn read_fault(alloc: Global, found: Found) -> Result<Self, AllocError>
        ensures told { IfOk result (λ s. end_of s ≡ read_fault) }
        ensures found { IfOk result (λ s. s.found ≡ found) }
    {
        Story::plain(alloc, Status::Unread, "read fault\n", found)
    }

    fn no_intake(alloc: Global) -> Result<Self, AllocError>
        ensures told { IfOk result (λ s. end_of s ≡ no_intake_end) }
        ensures found { IfOk result (λ s. s.found ≡ Nothing) }
    {
        Story::plain(alloc, Status::NoIntake, "no intake\n", Found::Nothing)
    }

    fn refused(alloc: Global, line: u32, code: u8, found: Found) -> Result<Self, AllocError>
        ensures told { IfOk result (λ s. end_of s ≡ refused_end line code) }
        ensures found { IfOk result (λ s. s.found ≡ found) }
    {
        let text = format!(in alloc; "script refused: line {line} code {code}\n")?;
        Ok(Story {
            status: Status::ScriptRefused,
            journal: Vec::new(alloc),
            at: Some((line, u32::from(code))),
            text: bytes_of(alloc, text.as_str())?,
            found,
        })
    }

    fn no_journal(alloc: Global, line: u32, found: Found) -> Result<Self, AllocError>
        ensures told { IfOk result (λ s. end_of s ≡ no_journal_end line) }
        ensures found { IfOk result (λ s. s.found ≡ found) }
    {
        let text = format!(in alloc; "journal refused: line {line}\n")?;
        Ok(Story {
            status: Status::JournalRefused,
            journal: Vec::new(alloc),
            at: Some((line, 1)),
            text: bytes_of(alloc, text.as_str())?,
            found,
        })
    }

    /// The call stopped, and hands on what it found out. An `Err` comes where memory runs out.
    pub(crate) fn stopped(alloc: Global, stop: Stop) -> Result<Self, AllocError>
        ensures told { IfOk result (λ s. stop_end stop ≡ Some (end_of s)) }
        ensures found { IfOk result (λ s. s.found ≡ found_of stop) }
    {
        match stop {
            Stop::Unread { line } => Story::read_fault(alloc, Found::Unread { line }),
            Stop::Script { line, cause } => {
                Story::refused(alloc, line, cause.code(), Found::Script(cause))
            }
            Stop::Journal { line, cause } => {
                Story::no_journal(alloc, line, Found::Journal(cause))
            }
            Stop::NoIntake => Story::no_intake(alloc),
            Stop::Memory => Err(AllocError),
        }
    }

    /// Tells a run that has come to this state, by a text, if memory sufficed for that.
    pub(crate) fn ran(
        state: State,
        journal: Vec<Entry>,
        text: Result<Vec<u8>, AllocError>,
        found: Found,
    ) -> Result<Self, AllocError>
        ensures told { (reported : List ℕ) → IfOk text (λ t. t.items ≡ reported) → IfOk result (λ s. end_of s ≡ ran_end state journal.items reported) }
        ensures found { IfOk result (λ s. s.found ≡ found) }
    {
        Ok(Story {
            status: Status::of(state),
            journal,
            at: None,
            text: text?,
            found,
        })
    }

    /// A journal whose events are lawful and have come to this state.
    pub(crate) fn lawful(
        alloc: Global,
        journal: Vec<Entry>,
        state: State,
        found: Found,
    ) -> Result<Self, AllocError>
        ensures told { IfOk result (λ s. end_of s ≡ lawful_end journal.items state) }
        ensures found { IfOk result (λ s. s.found ≡ found) }
    {
        let count = journal.len();
        let word = state_word(state);
        let text = format!(in alloc; "lawful {count} {word}\n")?;
        Ok(Story {
            status: Status::Drained,
            journal,
            at: None,
            text: bytes_of(alloc, text.as_str())?,
            found,
        })
    }

    /// A journal whose event at this index is the first that is not permitted.
    pub(crate) fn unlawful(
        alloc: Global,
        journal: Vec<Entry>,
        index: u32,
        found: Found,
    ) -> Result<Self, AllocError>
        ensures told { IfOk result (λ s. end_of s ≡ unlawful_end journal.items index) }
        ensures found { IfOk result (λ s. s.found ≡ found) }
    {
        let text = format!(in alloc; "journal refused: event {index}\n")?;
        Ok(Story {
            status: Status::JournalRefused,
            journal,
            at: Some((index, 2)),
            text: bytes_of(alloc, text.as_str())?,
            found,
        })
    }
}

// The word of a state.
fn state_word(state: State) -> &'static str
    ensures { result.now ≡ state_word state }
{
    match state {
        State::Drained => "drained",
        State::Stuck => "stuck",
        State::Misused => "misuse",
        State::Halted => "halted",
        State::Live => "open",
    }
}

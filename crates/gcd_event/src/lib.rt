//! The events of a run: what happened, one atomic step after another.
//!
//! | call | answer |
//! |---|---|
//! | `Event::fits` | whether the event's fields are in the ranges of its kind (`IsFitting`) |
//! | `Event::worker`, `begun`, `ended` | the worker whose it is; the run that it begins, or ends |
//! | `to_word` | the word of a fitting event (`word_of`), never 0 |
//! | `of_word` | the one fitting event that has the word; None exactly where no fitting event has it |
//! | `Entry::of`, `of_word`, `event` | the entry of a fitting event, or of its word; the event |
//! | `events_of` | the events of a journal as a list, or out of memory |
//!
//! | law, a function with an empty body | says |
//! |---|---|
//! | [`laws::words_are_injective`] | two fitting events have two words |
//! | [`laws::words_are_bounded`] | a fitting event's word is not 0, and its highest four bits are 0 |
//!
//! A word of 64 bits holds the event's kind in its highest byte, then a byte for the worker, two bytes for the block or
//! source that the event is about, and four bytes for the rest; `specs/Words` has the definition, one line a kind. A journal is a
//! `Vec<Entry>`: an [`Entry`] keeps an event as its word, in 8 bytes. Contracts see the event itself, so they see a journal as a list of
//! events. No call but `events_of` takes memory.
//!
//! An event says nothing of a plan: whether a plan has its block, and whether it may come next, is judged over a history
//! (`gcd_history`).
#![tactic(auto)]

mod entry;
mod event;
mod events;
pub mod laws;
mod words;

pub use entry::Entry;
pub use event::Event;
pub use events::events_of;
pub use words::{of_word, to_word};

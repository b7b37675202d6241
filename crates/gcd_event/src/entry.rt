// An event as its word.
ghost use Rattle.std.specs.Prelude.{◌≡◌};
ghost use Rattle.gcd_event.specs.declared.event.Event.{Event};
ghost use Rattle.gcd_event.specs.Fits.{IsFitting};
ghost use Rattle.gcd_event.specs.Words.{word_of};
ghost use Rattle.gcd_event.specs.Entries.{HasWord};

use crate::event::Event;
use crate::words::{of_word, to_word};
use std::marker::Model;

/// An event in 8 bytes. Contracts see the event.
#[derive(Clone, Copy)]
pub struct Entry(u64);

impl Model for Entry {
    ghost use Rattle.std.proofs.Common.{ap};
    ghost use Rattle.gcd_event.specs.declared.event.Event.{Event};
    ghost use Rattle.gcd_event.specs.Words.{word_of};
    ghost use Rattle.gcd_event.specs.Entries.{IsSpelling, spelled};

    ghost Value = { Event };

    ghost view = { λ entry. spelled entry.0 };

    ghost invariant = { λ entry. IsSpelling entry.0 };

    ghost inverse = { λ e. record { 0 = word_of e } };

    ghost inverse_ok = { λ entry is. ap (λ n. record { 0 = n }) is.word };
}

impl Entry {
    /// The entry of the event. [`Event::fits`] is the test of the condition.
    #[inline(always)]
    pub fn of(e: Event) -> Entry
        requires { IsFitting e }
        ensures { result ≡ e }
    {
        Entry(to_word(e))
    }

    /// The entry of the event whose word this is. Condition: it is the word of an event that fits.
    #[inline(always)]
    pub fn of_word(word: u64) -> Entry
        requires { HasWord word }
        ensures { (e : Event) → IsFitting e → word_of e ≡ word → result ≡ e }
    {
        Entry(word)
    }

    /// The event.
    #[inline(always)]
    pub fn event(self) -> Event
        ensures exact { result ≡ self }
        ensures fits { IsFitting self }
    {
        match of_word(self.0) {
            Some(e) => e,
            None => unreachable!(),
        }
    }
}

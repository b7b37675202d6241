// The steps on the words of the ring.
ghost use mathlib.Core.Logic.{◌⊎◌};
ghost use Rattle.std.specs.Prelude.{◌≡◌, ◌≢◌, ℕ, suc, ◌+◌, ◌%◌, ◌<◌, ◌≤◌, false, true, length, map, slice_index, MatchOption, IfSome, IfNone, None};
ghost use Rattle.gcd_event.specs.declared.event.Event.{Event};
ghost use Rattle.gcd_event.specs.Fits.{IsFitting};
ghost use Rattle.gcd_event.specs.Words.{word_of};
ghost use Rattle.gcd_history.specs.Choice.{worker_of};
ghost use Rattle.gcd_history.specs.History.{why};
ghost use Rattle.gcd_plan.specs.Validity.{IsPlan};
ghost use Rattle.gcd_row.specs.Passes.{MayRead};
ghost use Rattle.gcd_row.specs.Plays.{Asks, SeesMore, EndsHere, Found, Wins, LaysBack};
ghost use Rattle.gcd_row.specs.Ring.{IsWord, gone, is_news, lap, ring, under};
ghost use Rattle.gcd_row.specs.Views.{IsBack, knowing, passing};

use crate::board::RowBoard;
use crate::cell::Slot;
use crate::plays::{Again, Ask, End, Lawful, Look, PassOn, Try};
use crate::view::{Copies, View};
use crate::words::{exchange_word, load_word};
use atomic_table::Seat;
use gcd_event::{Entry, Event, of_word, to_word};

// How many events the ring has cells for.
pub(crate) const RING: u32 = 4_096;

// Where its passed words begin: behind word 0 and the cells.
pub(crate) const PASSED_WORDS: u32 = 4_097;

// How many words it has in all: these, and a passed word for each of 64 workers.
pub(crate) const RING_WORDS: u32 = 4_161;

// The lap bit.
const LAP: u64 = 9_223_372_036_854_775_808;

// What the passed word of a worker without a pass is.
pub(crate) const GONE: u64 = 18_446_744_073_709_551_615;

// The word in which event n stands.
#[inline(always)]
pub(crate) fn cell_of(n: u32) -> usize
    ensures { result ≡ suc (n % ring) }
{
    n as usize % RING as usize + 1
}

// Whether a word found in the cell of event n is that event's.
#[inline(always)]
pub fn is_news(n: u32, word: u64) -> bool
    ensures { result ≡ is_news n word }
{
    if word == 0 {
        return false;
    }
    word / LAP == u64::from(n / RING % 2)
}

// The word without its lap bit.
#[inline(always)]
fn bare(word: u64) -> u64
    ensures { (n e : ℕ) → IsWord e → word ≡ e + lap n → result ≡ e }
{
    word % LAP
}

// The word of event n with its lap bit.
#[inline(always)]
pub(crate) fn lapped(word: u64, n: u32) -> u64
    requires { IsWord word }
    ensures { result ≡ word + lap n }
{
    word + u64::from(n / RING % 2) * LAP
}

// The event whose word, with the lap bit of event n, was found in its cell.
#[inline(always)]
pub fn event_of(n: u32, found: u64) -> Event
    requires { (e : Event) × IsFitting e × (found ≡ word_of e + lap n) }
    ensures { (e : Event) → IsFitting e → found ≡ word_of e + lap n → result ≡ e }
{
    match of_word(bare(found)) {
        Some(e) => e,
        None => unreachable!(),
    }
}

// The entry of the event whose word, with the lap bit of event n, was found in its cell.
#[inline(always)]
pub fn entry_of(n: u32, found: u64) -> Entry
    requires { (e : Event) × IsFitting e × (found ≡ word_of e + lap n) }
    ensures { (e : Event) → IsFitting e → found ≡ word_of e + lap n → result ≡ e }
{
    Entry::of_word(bare(found))
}

impl<S: Slot> RowBoard<S> {
    // Loads the cell of the event n, the next.
    #[inline(always)]
    pub(crate) fn read(&self, seat: &mut Seat<S, View<S>>, n: u32) -> u64
        requires board { seat.old.table_id ≡ self.now.table.shared.table_id }
        requires may { MayRead seat.old.me.0 }
        requires place { n ≡ length seat.old.me.0.seen }
        ensures board { (seat.new.table_id ≡ seat.old.table_id) × (seat.new.me.1 ≡ seat.old.me.1) }
        ensures news { is_news n result ≡ true → Found seat.old.me.0 result seat.new.me.0 }
        ensures ends { is_news n result ≡ false → EndsHere seat.old.me.0 seat.new.me.0 × (result ≡ under (map word_of seat.old.me.0.seen)) }
    {
        load_word::<S, View<S>, Copies<S>, Lawful, Look>(&self.table.shared, seat, cell_of(n))
    }

    // Exchanges the cell of the event n from what lay there before.
    #[inline(always)]
    pub(crate) fn write(&self, seat: &mut Seat<S, View<S>>, n: u32, old: u64, e: Event) -> u64
        requires board { seat.old.table_id ≡ self.now.table.shared.table_id }
        requires may { MayRead seat.old.me.0 }
        requires place { (n ≡ length seat.old.me.0.seen) × (n < self.now.table.shared.key.limits.most) }
        requires old { old ≡ under (map word_of seat.old.me.0.seen) }
        requires pair { (seat.old.me.0.marks.upto ≡ 64) × (n < seat.old.me.0.marks.floor + ring) }
        requires valid { IsPlan seat.old.me.0.terms.plan }
        requires slot { LaysBack S.shape S.gives e seat.old.me }
        requires back { IsBack seat.old.me.0.handed.next }
        requires event { (worker_of e ≡ seat.old.me.0.worker) × (why seat.old.me.0.terms.plan seat.old.me.0.seen e ≡ None) }
        ensures board { seat.new.table_id ≡ seat.old.table_id }
        ensures won { result ≡ old → Wins S.shape S.gives e seat.old.me.0 seat.old.me.1 seat.new.me.0 seat.new.me.1 }
        ensures lost { result ≢ old → (seat.new.me.1 ≡ seat.old.me.1) × Found seat.old.me.0 result seat.new.me.0 }
    {
        let new = lapped(to_word(e), n);
        exchange_word::<S, View<S>, Copies<S>, Lawful, Try>(
            &self.table.shared,
            seat,
            cell_of(n),
            old,
            new,
        )
    }

    // Loads the passed word of worker k, where those below are known.
    #[inline(always)]
    pub(crate) fn ask(&self, seat: &mut Seat<S, View<S>>, k: u8) -> u64
        requires board { seat.old.table_id ≡ self.now.table.shared.table_id }
        requires may { MayRead seat.old.me.0 }
        requires place { (k < self.now.table.shared.key.limits.workers) × (k ≢ 0 → seat.old.me.0.marks.upto ≡ k) }
        ensures board { (seat.new.table_id ≡ seat.old.table_id) × (seat.new.me.1 ≡ seat.old.me.1) }
        ensures asks { Asks seat.old.me.0 k result seat.new.me.0 }
    {
        load_word::<S, View<S>, Copies<S>, Lawful, Ask>(
            &self.table.shared,
            seat,
            k as usize + PASSED_WORDS as usize,
        )
    }

    // Stores the pass's own passed word.
    #[inline(always)]
    pub(crate) fn store(&self, seat: &mut Seat<S, View<S>>, k: u8, x: u64)
        requires board { seat.old.table_id ≡ self.now.table.shared.table_id }
        requires may { MayRead seat.old.me.0 }
        requires place { k ≡ seat.old.me.0.worker }
        requires grows { (x ≡ gone) ⊎ ((seat.old.me.0.marks.passed ≤ x) × (x ≤ length seat.old.me.0.seen)) }
        ensures board { (seat.new.table_id ≡ seat.old.table_id) × (seat.new.me.1 ≡ seat.old.me.1) }
        ensures view { seat.new.me.0 ≡ knowing seat.old.me.0 seat.old.me.0.seen (passing seat.old.me.0.marks x) }
    {
        self.table
            .shared
            .store::<PassOn>(seat, k as usize + PASSED_WORDS as usize, x);
    }

    // The pass reads no cell again: its passed word is gone.
    pub(crate) fn leave(&self, seat: &mut Seat<S, View<S>>, k: u8)
        requires board { seat.old.table_id ≡ self.now.table.shared.table_id }
        requires may { MayRead seat.old.me.0 }
        requires place { k ≡ seat.old.me.0.worker }
        ensures board { (seat.new.table_id ≡ seat.old.table_id) × (seat.new.me.1 ≡ seat.old.me.1) }
        ensures view { seat.new.me.0 ≡ knowing seat.old.me.0 seat.old.me.0.seen (passing seat.old.me.0.marks gone) }
    {
        self.store(seat, k, GONE);
    }

    // Loads again the cell of the event n, which was seen and not passed.
    #[inline(always)]
    pub(crate) fn reread(&self, seat: &mut Seat<S, View<S>>, n: u32) -> u64
        requires board { seat.old.table_id ≡ self.now.table.shared.table_id }
        requires may { MayRead seat.old.me.0 }
        requires place { (seat.old.me.0.marks.passed ≤ n) × (n < length seat.old.me.0.seen) }
        ensures board { (seat.new.table_id ≡ seat.old.table_id) × (seat.new.me ≡ seat.old.me) }
        ensures word { result ≡ slice_index (map word_of seat.old.me.0.seen) n + lap n }
    {
        load_word::<S, View<S>, Copies<S>, Lawful, Again>(&self.table.shared, seat, cell_of(n))
    }

    // A pass that has seen as many events as there can be has seen the row.
    pub(crate) fn finish(&self, seat: &mut Seat<S, View<S>>)
        requires board { seat.old.table_id ≡ self.now.table.shared.table_id }
        requires may { MayRead seat.old.me.0 }
        requires full { length seat.old.me.0.seen ≡ self.now.table.shared.key.limits.most }
        ensures board { (seat.new.table_id ≡ seat.old.table_id) × (seat.new.me.1 ≡ seat.old.me.1) }
        ensures ends { EndsHere seat.old.me.0 seat.new.me.0 }
    {
        load_word::<S, View<S>, Copies<S>, Lawful, End>(&self.table.shared, seat, 0);
    }
}

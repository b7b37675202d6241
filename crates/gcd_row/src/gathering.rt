// Passing on, and gathering what was seen into a journal.
ghost use Rattle.std.specs.Prelude.{◌≡◌, ◌≢◌, suc, ◌<◌, ◌≤◌, ◌+◌, ◌-◌, ◌++◌, ◌∷◌, [], length, take, vec_capacity, OnOk, OnErr};
ghost use Rattle.gcd_row.specs.Passes.{IsPassOf, IsGathered, slots, view};
ghost use Rattle.gcd_row.specs.Views.{knowing, passing};

use crate::board::RowBoard;
use crate::cell::Slot;
use crate::pass::RowPass;
use crate::steps::entry_of;
use gcd_event::Entry;
use std::alloc::AllocError;

impl<S: Slot> RowBoard<S> {
    // Stores the number of events that the pass has seen in its passed word, unless that is it.
    #[inline(always)]
    fn pass_seen(&self, pass: &mut RowPass<S>)
        requires pass { IsPassOf S.shape S.gives self.now pass.old }
        ensures pass { IsPassOf S.shape S.gives self.now pass.new }
        ensures slots { slots pass.new ≡ slots pass.old }
        ensures view { view pass.new ≡ knowing (view pass.old) (view pass.old).seen (passing (view pass.old).marks (length (view pass.old).seen)) }
    {
        let n = u64::from(pass.machine.len());
        if n == pass.passed {
            return;
        }
        self.store(&mut pass.seat, pass.number, n);
        pass.passed = n;
    }

    /// Stores the number of events that the pass has seen in its passed word: it does not read those cells again, and they may be
    /// written. Condition: the pass is not worker 0's, which gathers what it passes. Nothing is stored where nothing more was seen.
    #[inline(always)]
    pub fn pass_on(&self, pass: &mut RowPass<S>)
        requires pass { IsPassOf S.shape S.gives self.now pass.old }
        requires helper { (view pass.old).worker ≢ 0 }
        ensures pass { IsPassOf S.shape S.gives self.now pass.new }
        ensures slots { slots pass.new ≡ slots pass.old }
        ensures view { view pass.new ≡ knowing (view pass.old) (view pass.old).seen (passing (view pass.old).marks (length (view pass.old).seen)) }
    {
        self.pass_seen(pass);
    }

    // The event n, which was seen and not passed.
    fn entry_at(&self, pass: &mut RowPass<S>, n: u32) -> Entry
        requires pass { IsPassOf S.shape S.gives self.now pass.old }
        requires place { ((view pass.old).marks.passed ≤ n) × (n < length (view pass.old).seen) }
        ensures pass { IsPassOf S.shape S.gives self.now pass.new }
        ensures slots { slots pass.new ≡ slots pass.old }
        ensures view { view pass.new ≡ view pass.old }
        ensures event { take (suc n) (view pass.old).seen ≡ take n (view pass.old).seen ++ result ∷ [] }
    {
        entry_of(n, self.reread(&mut pass.seat, n))
    }

    // Appends the events from `first` up to n.
    fn append(&self, pass: &mut RowPass<S>, first: u32, n: u32, journal: &mut Vec<Entry>)
        requires pass { IsPassOf S.shape S.gives self.now pass.old }
        requires place { ((view pass.old).marks.passed ≤ first) × (first ≤ n) × (n ≡ length (view pass.old).seen) }
        requires journal { journal.old.items ≡ take first (view pass.old).seen }
        requires room { length journal.old.items + (n - first) ≤ vec_capacity journal.old }
        ensures pass { IsPassOf S.shape S.gives self.now pass.new }
        ensures slots { slots pass.new ≡ slots pass.old }
        ensures view { view pass.new ≡ view pass.old }
        ensures journal { journal.new.items ≡ (view pass.old).seen }
    {
        let mut i = first;
        while i < n {
            let e = self.entry_at(pass, i);
            journal.push_reserved(e);
            i += 1;
        }
    }

    /// Appends to the journal the events that the pass has seen and not passed, read from the cells, and stores the number of events
    /// that it has seen in its passed word. Conditions: worker 0's pass is given, and the journal is what it has passed. An `Err` comes
    /// only where memory runs out, and then nothing has changed. It costs a load for each event that it appends, and a store.
    pub fn gather(&self, pass: &mut RowPass<S>, journal: &mut Vec<Entry>) -> Result<(), AllocError>
        requires pass { IsPassOf S.shape S.gives self.now pass.old }
        requires head { (view pass.old).worker ≡ 0 }
        requires journal { IsGathered (view pass.old) journal.old.items }
        ensures pass { IsPassOf S.shape S.gives self.now pass.new }
        ensures slots { slots pass.new ≡ slots pass.old }
        ensures gathered { IsGathered (view pass.new) journal.new.items }
        ensures ok { OnOk result ((journal.new.items ≡ (view pass.old).seen) × (view pass.new ≡ knowing (view pass.old) (view pass.old).seen (passing (view pass.old).marks (length (view pass.old).seen)))) }
        ensures err { OnErr result ((journal.new.items ≡ journal.old.items) × (view pass.new ≡ view pass.old)) }
    {
        let n = pass.machine.len();
        let first = pass.passed as u32;
        journal.reserve((n - first) as usize)?;
        self.append(pass, first, n, journal);
        self.pass_seen(pass);
        Ok(())
    }
}

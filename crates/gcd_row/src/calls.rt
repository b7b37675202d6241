// Looking and putting.
ghost use Rattle.std.specs.Prelude.{◌≡◌, ◌+◌, ◌<◌, length, map, MatchOption, IfNone, IfSome, None};
ghost use Rattle.gcd_event.specs.Words.{word_of};
ghost use Rattle.gcd_history.specs.Choice.{worker_of};
ghost use Rattle.gcd_history.specs.History.{why};
ghost use Rattle.gcd_row.specs.Lying.{GivesBack};
ghost use Rattle.gcd_row.specs.Passes.{IsPassOf, Knew, Learnt, LearntOn, Looks, Says, SaysSlots, Turns, TurnsSlots, slots, terms_of, view};
ghost use Rattle.gcd_row.specs.Plays.{EndsHere};
ghost use Rattle.gcd_row.specs.Ring.{under};

use crate::board::RowBoard;
use crate::cell::Slot;
use crate::pass::RowPass;
use crate::steps::{RING, event_of, is_news};
use gcd_event::Event;
use gcd_machine::Put;

impl<S: Slot> RowBoard<S> {
    /// How many events the row can have at most.
    #[inline(always)]
    pub fn most(&self) -> u32
        ensures { result ≡ (terms_of self.now).limits.most }
    {
        self.limits.most
    }

    // Sees the event n, where there is one; else gives the word that lies in its cell.
    #[inline(always)]
    fn advance(&self, pass: &mut RowPass<S>, n: u32) -> Option<u64>
        requires pass { IsPassOf S.shape S.gives self.now pass.old }
        requires place { (n ≡ length (view pass.old).seen) × (n < self.now.table.shared.key.limits.most) }
        ensures pass { IsPassOf S.shape S.gives self.now pass.new }
        ensures slots { slots pass.new ≡ slots pass.old }
        ensures view { MatchOption result (Learnt (view pass.old) (view pass.new)) (λ x. EndsHere (view pass.old) (view pass.new) × (x ≡ under (map word_of (view pass.old).seen))) }
    {
        let word = self.read(&mut pass.seat, n);
        if is_news(n, word) {
            pass.beneath = None;
            pass.machine.apply(event_of(n, word));
            return None;
        }
        pass.beneath = Some(word);
        Some(word)
    }

    // The event is placed, where it is permitted after what the pass has seen, and `old` lies in its cell; or a passed word holds it, or
    // one event more was seen.
    #[inline(always)]
    fn settle(&self, pass: &mut RowPass<S>, n: u32, old: u64, e: Event) -> Option<Put>
        requires pass { IsPassOf S.shape S.gives self.now pass.old }
        requires place { (n ≡ length (view pass.old).seen) × (n < self.now.table.shared.key.limits.most) }
        requires old { old ≡ under (map word_of (view pass.old).seen) }
        requires cell { GivesBack S.shape (view pass.old).terms (view pass.old).seen e (slots pass.old) }
        requires event { (worker_of e ≡ (view pass.old).worker) × (why (view pass.old).terms.plan (view pass.old).seen e ≡ None) }
        ensures pass { IsPassOf S.shape S.gives self.now pass.new }
        ensures view { Turns e (view pass.old) (view pass.new) result }
        ensures slots { TurnsSlots S.shape S.gives e (slots pass.old) (slots pass.new) (view pass.new) result }
    {
        if let Some(by) = self.holder(pass, n) {
            let passed = u64::from(n) - u64::from(RING);
            return Some(Put::Held { by, passed });
        }
        let found = self.write(&mut pass.seat, n, old, e);
        pass.beneath = None;
        if found == old {
            pass.machine.apply(e);
            return Some(Put::Placed(n));
        }
        pass.machine.apply(event_of(n, found));
        None
    }

    // One turn: the event is placed, or its answer is known, or one event more was seen.
    #[inline(always)]
    fn turn(&self, pass: &mut RowPass<S>, n: u32, e: Event) -> Option<Put>
        requires pass { IsPassOf S.shape S.gives self.now pass.old }
        requires place { (n ≡ length (view pass.old).seen) × (n < self.now.table.shared.key.limits.most) }
        requires worker { worker_of e ≡ (view pass.old).worker }
        requires cell { GivesBack S.shape (view pass.old).terms (view pass.old).seen e (slots pass.old) }
        ensures pass { IsPassOf S.shape S.gives self.now pass.new }
        ensures view { Turns e (view pass.old) (view pass.new) result }
        ensures slots { TurnsSlots S.shape S.gives e (slots pass.old) (slots pass.new) (view pass.new) result }
    {
        match self.advance(pass, n) {
            Some(old) => match pass.machine.permits(e) {
                Some(why) => Some(Put::Barred { at: n, why }),
                None => self.settle(pass, n, old, e),
            },
            None => None,
        }
    }

    /// Sees the row as it is at a moment of the call, and answers its length: at least what the pass had seen. It
    /// costs one load for each event that is new to the pass, and one more.
    #[inline(always)]
    pub fn look(&self, pass: &mut RowPass<S>) -> u32
        requires { IsPassOf S.shape S.gives self.now pass.old }
        ensures pass { IsPassOf S.shape S.gives self.now pass.new }
        ensures slots { slots pass.new ≡ slots pass.old }
        ensures view { Looks (view pass.old) (view pass.new) }
        ensures length { result ≡ length (view pass.new).seen }
    {
        let most = self.limits.most;
        let mut n = pass.machine.len();
        while n < most {
            if self.advance(pass, n).is_some() {
                return n;
            }
            n += 1;
        }
        self.finish(&mut pass.seat);
        n
    }

    /// Places an event of the pass's worker behind all others, by the one exchange that makes it the row's next event, or says
    /// why it may not stand there. Conditions: before an act that parks its block, the pass has the
    /// block's body in the slot; before an End, the value; before a DeliverEnd, the handler with all Delivers of its source.
    ///
    /// - `Placed(n)`: the event is event n, and the last that the pass has seen. With a Start, Wake or Deliver the pass has
    ///   the run's slot, with what lay there, and notes that; with an act that parks, an End or a DeliverEnd the slot is given back;
    ///   with an Accept the body that lies in the block's slot is the block's job from then on, and worker 0's pass notes it.
    /// - `Barred`: the row was what the pass has seen now, `at` events, after which the event is not permitted for that reason.
    /// - `Held`: the row was what the pass has seen now, after which the event is permitted; but its cell still has the event a lap
    ///   ago, number `passed`, and the passed word of the worker `by`, loaded in this call, is that number. Those of workers below
    ///   `by` were greater. Where `by` is the pass's own number it has to pass on, or to gather; else that worker has to.
    /// - `Full`: the row has as many events as it can have. It is told before `Barred`, and `Barred` before `Held`.
    ///
    /// It costs a load and a step of the machine for each event that is new to the pass, a load and an exchange more, and one load
    /// for each worker where what the pass knows of their passed words does not let the event be written.
    pub fn put(&self, pass: &mut RowPass<S>, e: Event) -> Put
        requires pass { IsPassOf S.shape S.gives self.now pass.old }
        requires worker { worker_of e ≡ (view pass.old).worker }
        requires cell { GivesBack S.shape (view pass.old).terms (view pass.old).seen e (slots pass.old) }
        ensures pass { IsPassOf S.shape S.gives self.now pass.new }
        ensures view { Says e (view pass.old) (view pass.new) result }
        ensures slots { SaysSlots S.shape S.gives e (slots pass.old) (slots pass.new) (view pass.new) result }
    {
        let most = self.limits.most;
        let mut n = pass.machine.len();
        while n < most {
            if let Some(answer) = self.turn(pass, n, e) {
                return answer;
            }
            n += 1;
        }
        Put::Full
    }

    // What lies in the cell of event n, the next, where the pass knows it: from its last look, or because it is the first lap.
    #[inline(always)]
    fn beneath(&self, pass: &RowPass<S>, n: u32) -> Option<u64>
        requires pass { IsPassOf S.shape S.gives self.now pass.now }
        requires place { n ≡ length (view pass.now).seen }
        ensures { IfSome result (λ x. x ≡ under (map word_of (view pass.now).seen)) }
    {
        if n < RING {
            return Some(0);
        }
        pass.beneath
    }

    // What lies in the cell of event n, the next; or None, if one event more was seen.
    #[inline(always)]
    fn next_cell(&self, pass: &mut RowPass<S>, n: u32) -> Option<u64>
        requires pass { IsPassOf S.shape S.gives self.now pass.old }
        requires place { (n ≡ length (view pass.old).seen) × (n < self.now.table.shared.key.limits.most) }
        ensures pass { IsPassOf S.shape S.gives self.now pass.new }
        ensures slots { slots pass.new ≡ slots pass.old }
        ensures known { IfSome result (λ x. Knew (view pass.old) (view pass.new) × (x ≡ under (map word_of (view pass.old).seen))) }
        ensures seen { IfNone result (LearntOn (view pass.old) (view pass.new)) }
    {
        match self.beneath(pass, n) {
            Some(old) => Some(old),
            None => match self.advance(pass, n) {
                Some(old) => Some(old),
                None => None,
            },
        }
    }

    /// Places an event as [`RowBoard::put`] does, where it is permitted after what the pass has seen, as one that its machine chose. It is
    /// not judged again before the first exchange. If the pass's last step was a look, no cell is loaded before that.
    #[inline(always)]
    pub fn put_chosen(&self, pass: &mut RowPass<S>, e: Event) -> Put
        requires pass { IsPassOf S.shape S.gives self.now pass.old }
        requires worker { worker_of e ≡ (view pass.old).worker }
        requires chosen { why (view pass.old).terms.plan (view pass.old).seen e ≡ None }
        requires cell { GivesBack S.shape (view pass.old).terms (view pass.old).seen e (slots pass.old) }
        ensures pass { IsPassOf S.shape S.gives self.now pass.new }
        ensures view { Says e (view pass.old) (view pass.new) result }
        ensures slots { SaysSlots S.shape S.gives e (slots pass.old) (slots pass.new) (view pass.new) result }
    {
        let n = pass.machine.len();
        if n >= self.limits.most {
            return Put::Full;
        }
        let Some(old) = self.next_cell(pass, n) else {
            return self.put(pass, e);
        };
        match self.settle(pass, n, old, e) {
            Some(answer) => answer,
            None => self.put(pass, e),
        }
    }
}

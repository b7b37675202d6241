// The objects whose chain is held.
ghost use Rattle.std.specs.Prelude.{◌≡◌, ◌≢◌, ℕ, ◌<◌, ◌-◌, ◌&&◌, not, true, false, IfOk, length, slice_index_or, slice_set};
ghost use Rattle.std.specs.List.{find, range_with_len};
ghost use Rattle.gcd_sets.specs.Words.{is_in_words};
ghost use Rattle.gcd_tree.specs.IsTree.{IsTree};
ghost use Rattle.gcd_drain.specs.Held.{is_chain_held_by, is_held_by_target, AreHeld, AreHeldBut, AreHeldIn};

use crate::free::is_free;
use gcd_hold::Holds;
use gcd_plan::Obj;
use gcd_sets::{BitSet, SmallSet};
use gcd_tree::Tree;
use std::alloc::{AllocError, Global};
use std::marker::Model;

/// The objects whose chain is held: an object of the chain is inactive, suspended or about to move. So nothing starts on them
/// (dispatch_suspend(3), dispatch_activate(3), dispatch_set_target_queue(3)).
///
/// Contracts see it as a list of truth values, one for each object. `AreHeld` says that the list is right for a tree and holds.
#[derive(Drop)]
pub struct HeldChains {
    held: BitSet,
}

impl Model for HeldChains {
    ghost use Rattle.std.specs.Prelude.{Bool, List};

    ghost Value = { List Bool };

    ghost view = { λ h. h.held };
}

impl HeldChains {
    /// Makes the set for this tree and these holds. It looks at each object once, and takes all its memory at once, so an `Err` comes
    /// only if memory runs out. (This project's own rule.)
    pub fn new(alloc: Global, tree: &Tree, holds: &Holds) -> Result<HeldChains, AllocError>
        requires { length holds.now.holds ≡ length tree.now.targets }
        ensures { IfOk result (λ h. AreHeld h tree.now holds.now) }
    {
        let mut chains = HeldChains {
            held: BitSet::new(alloc, tree.objects())?,
        };
        chains.hold_all(tree, holds);
        Ok(chains)
    }

    /// Copies the set. The copy takes all its memory at once, so an `Err` comes only if memory runs out.
    pub fn copied(&self, alloc: Global) -> Result<HeldChains, AllocError>
        ensures { IfOk result (λ h. h ≡ self.now) }
    {
        Ok(HeldChains {
            held: self.held.copied(alloc)?,
        })
    }

    /// Whether the chain of the object is held (dispatch_suspend(3)).
    #[inline(always)]
    pub fn has(&self, o: Obj) -> bool
        requires { o.0 < length self.now }
        ensures { result ≡ slice_index_or self.now o.0 false }
    {
        self.held.has(o.0)
    }

    /// The least number from the given one on that is in `busy`, and whose chain is not held. It returns None exactly if there is
    /// none. It takes a step for each word of 64 objects that it passes. (This project's own rule.)
    #[inline(always)]
    pub fn next_in(&self, busy: &BitSet, from: u32) -> Option<u32>
        requires { length busy.now ≡ length self.now }
        ensures { result ≡ find (λ i. slice_index_or busy.now i false && not (slice_index_or self.now i false))
            (range_with_len from (length busy.now - from)) }
    {
        busy.next_without(&self.held, from)
    }

    /// Makes the set right again after one object has become free, or is free no more, or has another target or request
    /// (dispatch_suspend(3), dispatch_resume(3), dispatch_activate(3), dispatch_set_target_queue(3)).
    ///
    /// It takes one step if the answer for the object stays, or if no object ever had it as its target. Otherwise it looks at
    /// each object once.
    pub fn rehold(&mut self, tree: &Tree, holds: &Holds, o: Obj)
        requires object { o.0 < length tree.now.targets }
        requires holds { length holds.now.holds ≡ length tree.now.targets }
        requires others { AreHeldBut self.old tree.now holds.now o.0 }
        ensures { AreHeld self.new tree.now holds.now }
    {
        let held = self.is_held_by_target(tree, holds, o);
        let before = self.has(o);
        if held == before {
            return;
        }
        if tree.is_never_target(o) {
            self.held.put(o.0, held);
            return;
        }
        self.hold_all(tree, holds);
    }

    // Whether the object is not free, or the chain of its target is held.
    fn is_held_by_target(&self, tree: &Tree, holds: &Holds, o: Obj) -> bool
        requires object { o.0 < length tree.now.targets }
        requires holds { length holds.now.holds ≡ length tree.now.targets }
        requires set { length self.now ≡ length tree.now.targets }
        ensures answer { result ≡ is_held_by_target self.now tree.now holds.now o.0 }
        ensures valid { IsTree tree.now }
    {
        let next = tree.target(o);
        !is_free(tree, holds, o) || (o.0 != 0 && self.held.has(next.0))
    }

    // Looks at each object again.
    fn hold_all(&mut self, tree: &Tree, holds: &Holds)
        requires holds { length holds.now.holds ≡ length tree.now.targets }
        requires set { length self.old ≡ length tree.now.targets }
        ensures { AreHeld self.new tree.now holds.now }
    {
        let mut known = SmallSet::new();
        for o in 0..tree.objects() {
            self.hold_chain(tree, holds, Obj(o), &mut known);
        }
    }

    // Whether the chain of the object is held. The answers of this call are known afterwards, so calls with the same set look at
    // each object at most once.
    fn hold_chain(&mut self, tree: &Tree, holds: &Holds, o: Obj, known: &mut SmallSet) -> bool
        requires object { o.0 < length tree.now.targets }
        requires holds { length holds.now.holds ≡ length tree.now.targets }
        requires known { AreHeldIn known.old self.old tree.now holds.now }
        ensures answer { result ≡ is_chain_held_by tree.now holds.now o.0 }
        ensures known { AreHeldIn known.new self.new tree.now holds.now }
        ensures here { is_in_words known.new o.0 ≡ true }
        ensures still { (k : ℕ) → is_in_words known.old k ≡ true → is_in_words known.new k ≡ true }
    {
        let next = tree.target(o);
        if known.has(o.0) {
            return self.held.has(o.0);
        }
        if !is_free(tree, holds, o) {
            self.note(known, o, true);
            return true;
        }
        if o.0 == 0 {
            self.note(known, o, false);
            return false;
        }
        let held = self.hold_chain(tree, holds, next, known);
        self.note(known, o, held);
        held
    }

    // Notes whether the chain of the object is held.
    fn note(&mut self, known: &mut SmallSet, o: Obj, held: bool)
        requires object { o.0 < length self.old }
        requires few { o.0 < 1024 }
        ensures held { self.new ≡ slice_set self.old o.0 held }
        ensures there { is_in_words known.new o.0 ≡ true }
        ensures others { (k : ℕ) → k ≢ o.0 → is_in_words known.new k ≡ is_in_words known.old k }
    {
        self.held.put(o.0, held);
        known.set(o.0);
    }
}

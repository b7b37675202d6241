// Why a block may not start and a handler may not run, with the set of held chains at hand.
ghost use Rattle.std.specs.Prelude.{◌≡◌, ◌<◌, not, Some, length};
ghost use Rattle.std.specs.List.{list_any};
ghost use Rattle.gcd_plan.specs.StartRule.{first_of};
ghost use Rattle.gcd_tree.specs.TreeView.{chain_at};
ghost use Rattle.gcd_drain.specs.Rule.{is_free_by, place_reasons, start_fault_of, run_fault_of};
ghost use Rattle.gcd_drain.specs.Held.{AreHeld};

use crate::drains::{Drains, is_behind};
use crate::held_chains::HeldChains;
use gcd_hold::Holds;
use gcd_lists::Lists;
use gcd_plan::{Blk, Obj, Why};
use gcd_tree::Tree;

// Whether an object of the node's chain is not free.
fn is_held(tree: &Tree, holds: &Holds, held: &HeldChains, node: Obj) -> bool
    requires node { node.0 < length tree.now.targets }
    requires held { AreHeld held.now tree.now holds.now }
    ensures { result ≡ list_any (λ o. not (is_free_by tree.now holds.now o)) (chain_at tree.now node.0) }
{
    held.has(node)
}

impl Drains {
    // Why a block that waits at the place may not start.
    fn place_fault(
        &self,
        lists: &Lists,
        tree: &Tree,
        holds: &Holds,
        held: &HeldChains,
        b: Blk,
        place: (Obj, bool),
    ) -> Option<Why>
        requires node { place.0.0 < length self.now.barriers }
        requires lists { length lists.now.lists ≡ length self.now.barriers }
        requires tree { length tree.now.targets ≡ length self.now.barriers }
        requires held { AreHeld held.now tree.now holds.now }
        ensures { result ≡ first_of (place_reasons self.now lists.now tree.now holds.now b.0 (Some place)) }
    {
        let (node, barrier) = place;
        if is_behind(lists, node, b) {
            Some(Why::Behind)
        } else if is_held(tree, holds, held, node) {
            Some(Why::NotFree)
        } else if self.is_excluded(tree, node) {
            Some(Why::Excluded)
        } else if self.is_fenced(tree, node, barrier) {
            Some(Why::Fenced)
        } else {
            None
        }
    }

    /// The first reason why the block may not start. It returns None exactly if it may. `Unready`: it waits nowhere. `Behind`:
    /// another block is first on its node. `NotFree`: an object of the node's chain is inactive, suspended or about to
    /// move. `Excluded`: a run is open beneath a serial queue or source of the chain. `Fenced`: the node is a concurrent
    /// queue other than `root`, and a barrier is open on it, or the block is a barrier and a run is open on it.
    /// (dispatch_async(3), dispatch_barrier_async(3), dispatch_suspend(3), dispatch_set_target_queue(3))
    ///
    /// The block is not `main`, which waits on no node, and the parts are of one plan. It takes one look at the set, and at most one
    /// walk along the chain. If no run is open it takes no walk.
    pub fn may_start(
        &self,
        lists: &Lists,
        tree: &Tree,
        holds: &Holds,
        held: &HeldChains,
        b: Blk,
    ) -> Option<Why>
        requires not_main { 0 < b.0 }
        requires block { b.0 < lists.now.blocks }
        requires lists { length lists.now.lists ≡ length self.now.barriers }
        requires tree { length tree.now.targets ≡ length self.now.barriers }
        requires held { AreHeld held.now tree.now holds.now }
        ensures { result ≡ start_fault_of self.now lists.now tree.now holds.now b.0 }
    {
        match lists.place(b) {
            Some(place) => self.place_fault(lists, tree, holds, held, b, place),
            None => Some(Why::Unready),
        }
    }

    /// The first reason why the handler of a source, to which something is pending, may not run. It returns None exactly if it
    /// may. `NotFree`: an object of the source's chain is inactive, suspended or about to move. `Excluded`: a run is open
    /// beneath a serial queue or source of the chain. (dispatch_source_create(3), dispatch_suspend(3))
    ///
    /// The parts are of one plan. It takes one look at the set, and at most one walk along the chain. If no run is open it takes no
    /// walk.
    pub fn may_run(&self, tree: &Tree, holds: &Holds, held: &HeldChains, src: Obj) -> Option<Why>
        requires source { src.0 < length self.now.barriers }
        requires tree { length tree.now.targets ≡ length self.now.barriers }
        requires held { AreHeld held.now tree.now holds.now }
        ensures { result ≡ run_fault_of self.now tree.now holds.now src.0 }
    {
        if is_held(tree, holds, held, src) {
            Some(Why::NotFree)
        } else if self.is_excluded(tree, src) {
            Some(Why::Excluded)
        } else {
            None
        }
    }
}

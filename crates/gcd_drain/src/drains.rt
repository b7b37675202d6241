// The open barriers, and what excludes and fences a node.
ghost use Rattle.std.specs.Prelude.{◌≡◌, ◌+◌, ◌-◌, ◌<◌, ◌^◌, true, false, IfOk, length};
ghost use Rattle.std.specs.List.{list_any};
ghost use Rattle.gcd_tree.specs.TreeView.{chain_at};
ghost use Rattle.gcd_drain.specs.DrainsView.{drains_of, barriers_at, with_barriers};
ghost use Rattle.gcd_drain.specs.Rule.{excludes_at, is_behind_at, is_fenced_at};

use gcd_lists::Lists;
use gcd_plan::{Blk, Kind, Obj, Plan};
use gcd_tree::Tree;
use std::alloc::{AllocError, Global};
use std::marker::Model;

/// How many barriers are open on each object of a plan, and the objects' kinds (dispatch_barrier_async(3)). Contracts see
/// them as plain lists by object (`DrainsView`).
#[derive(Drop)]
pub struct Drains {
    barriers: Vec<u32>,
    kinds: Vec<Kind>,
}

impl Model for Drains {
    ghost use Rattle.gcd_drain.specs.DrainsView.{DrainsView, AreAsMany};

    ghost Value = { DrainsView };

    ghost view = { λ d. record { barriers = d.barriers.items; kinds = d.kinds.items } };

    ghost invariant = { λ d. AreAsMany (record { barriers = d.barriers.items; kinds = d.kinds.items }) };
}

// Whether another block than b is first on the node.
pub(crate) fn is_behind(lists: &Lists, node: Obj, b: Blk) -> bool
    requires { node.0 < length lists.now.lists }
    ensures { result ≡ is_behind_at lists.now b.0 node.0 }
{
    match lists.first(node) {
        Some((first, _)) => first.0 != b.0,
        None => false,
    }
}

impl Drains {
    /// The plan's objects before the first event: no barrier is open. It takes all the memory that the numbers ever need:
    /// an `Err` comes only where memory runs out. (This project's own rule.)
    pub fn new(alloc: Global, plan: &Plan) -> Result<Drains, AllocError>
        ensures { IfOk result (λ d. d ≡ drains_of plan.now) }
    {
        Ok(Drains {
            barriers: vec![in alloc; 0; plan.objects() as usize]?,
            kinds: plan.kinds(alloc)?,
        })
    }

    /// Copies the numbers. The copy takes all its memory at once, so an `Err` comes only if memory runs out.
    pub fn copied(&self, alloc: Global) -> Result<Drains, AllocError>
        ensures { IfOk result (λ d. d ≡ self.now) }
    {
        Ok(Drains {
            barriers: Vec::from_slice(alloc, &self.barriers)?,
            kinds: Vec::from_slice(alloc, &self.kinds)?,
        })
    }

    // Whether the object is a serial queue or a source, and a run is open beneath it.
    pub(crate) fn excludes(&self, tree: &Tree, o: Obj) -> bool
        requires object { o.0 < length self.now.barriers }
        requires tree { length tree.now.targets ≡ length self.now.barriers }
        ensures { result ≡ excludes_at self.now tree.now o.0 }
    {
        self.kinds[o.0 as usize].is_exclusive() && tree.open_beneath(o) > 0
    }

    // Whether an object of the node's chain excludes. If no run is open, none does.
    pub(crate) fn is_excluded(&self, tree: &Tree, node: Obj) -> bool
        requires node { node.0 < length self.now.barriers }
        requires tree { length tree.now.targets ≡ length self.now.barriers }
        ensures { result ≡ list_any (excludes_at self.now tree.now) (chain_at tree.now node.0) }
    {
        if !tree.any_open() {
            return false;
        }
        for o in tree.chain(node) {
            if self.excludes(tree, o) {
                return true;
            }
        }
        false
    }

    /// Whether the barrier rule keeps a block of the node from starting: the node is a concurrent queue other than `root`,
    /// and a barrier is open on it, or the block is a barrier and a run is open on it (dispatch_barrier_async(3)). A block
    /// that is first on its node may start exactly where it does not, and the node's chain is not shut.
    pub fn is_fenced(&self, tree: &Tree, node: Obj, barrier: bool) -> bool
        requires node { node.0 < length self.now.barriers }
        requires tree { length tree.now.targets ≡ length self.now.barriers }
        ensures { result ≡ is_fenced_at self.now tree.now barrier node.0 }
    {
        let at = node.0 as usize;
        node.0 != 0
            && self.kinds[at].is_concurrent()
            && (self.barriers[at] > 0 || (barrier && tree.open_on(node) > 0))
    }

    /// How many barriers are open on the node: as barriers submitted there, begun and not ended, whether or not the node
    /// is a queue on which they count (dispatch_barrier_async(3)).
    pub fn barriers(&self, node: Obj) -> u32
        requires { node.0 < length self.now.barriers }
        ensures { result ≡ barriers_at self.now node.0 }
    {
        self.barriers[node.0 as usize]
    }

    /// A block begins on the node, as a barrier or not (dispatch_barrier_async(3)). Where it is one, fewer than 2^32 - 1
    /// barriers are open there: [`Drains::barriers`] is the test.
    pub fn began(&mut self, node: Obj, barrier: bool)
        requires node { node.0 < length self.old.barriers }
        requires room { barrier ≡ true → barriers_at self.old node.0 + 1 < 2 ^ 32 }
        ensures barrier { barrier ≡ true → self.new ≡ with_barriers self.old node.0 (barriers_at self.old node.0 + 1) }
        ensures plain { barrier ≡ false → self.new ≡ self.old }
    {
        if barrier {
            self.barriers[node.0 as usize] += 1;
        }
    }

    /// A block ends on the node, where it began as a barrier or not (dispatch_barrier_async(3)). Where it was one, a
    /// barrier is open there: [`Drains::barriers`] is the test.
    pub fn ended(&mut self, node: Obj, barrier: bool)
        requires node { node.0 < length self.old.barriers }
        requires begun { barrier ≡ true → 0 < barriers_at self.old node.0 }
        ensures barrier { barrier ≡ true → self.new ≡ with_barriers self.old node.0 (barriers_at self.old node.0 - 1) }
        ensures plain { barrier ≡ false → self.new ≡ self.old }
    {
        if barrier {
            self.barriers[node.0 as usize] -= 1;
        }
    }
}

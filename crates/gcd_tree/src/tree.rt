// The tree of targets, with the runs that are open beneath each object.
ghost use Rattle.std.specs.Prelude.{◌≡◌, ◌≢◌, ℕ, ◌+◌, ◌-◌, ◌<◌, ◌≤◌, ◌^◌, nat_lt, true, false, None, length, sum, All, IfOk};
ghost use Rattle.gcd_plan.specs.Limits.{max_objects};
ghost use Rattle.gcd_tree.specs.TreeView.{tree_of, target_at, is_moving_at, open_on_at, is_node_at, chain_at, has_mover_at, walk_next, would_cycle_at, is_child_of, has_child_at, open_beneath_at, with_target, with_request, with_open, settled};
ghost use Rattle.gcd_tree.specs.IsTree.{IsTree};

use crate::along::{lower_along, raise_along};
use crate::chain::Chain;
use crate::first::{first_targets, nodes_and_marks};
use crate::flags::copied_flags;
use gcd_plan::{Obj, Plan};
use std::alloc::{AllocError, Global};
use std::marker::Model;

/// The targets of a plan's queues and sources, the targets that wait until an object has no open run, and how many runs
/// are open on and beneath each object (dispatch_set_target_queue(3)). Contracts see it as plain lists by object
/// (`TreeView`).
#[derive(Drop)]
pub struct Tree {
    targets: Vec<Obj>,
    requests: Vec<Option<Obj>>,
    open_on: Vec<u32>,
    open_beneath: Vec<u32>,
    nodes: Vec<bool>,
    // By object: true if an object has it, or once had it, as its target.
    marks: Vec<bool>,
}

impl Model for Tree {
    ghost use Rattle.gcd_tree.specs.TreeView.{TreeView};
    ghost use Rattle.gcd_tree.specs.IsTree.{IsTree, CountBeneath, MarkTargets};

    ghost Value = { TreeView };

    ghost use Rattle.gcd_tree.specs.Inside.{view_of};

    ghost view = { view_of };

    ghost invariant = { λ t. IsTree (view_of t) × CountBeneath (view_of t) t.open_beneath.items × MarkTargets t.targets.items t.marks.items };
}

impl Tree {
    /// The tree of the plan before its first event: the first targets, no request, nothing open. Err for lack of memory.
    pub fn new(alloc: Global, plan: &Plan) -> Result<Tree, AllocError>
        ensures { IfOk result (λ tree. tree ≡ tree_of plan.now) }
    {
        let count = plan.objects() as usize;
        let (nodes, marks) = nodes_and_marks(alloc, plan)?;
        Ok(Tree {
            targets: first_targets(alloc, plan)?,
            requests: vec![in alloc; None; count]?,
            open_on: vec![in alloc; 0; count]?,
            open_beneath: vec![in alloc; 0; count]?,
            nodes,
            marks,
        })
    }

    /// Copies the tree. The copy takes all its memory at once, so an `Err` comes only if memory runs out.
    pub fn copied(&self, alloc: Global) -> Result<Tree, AllocError>
        ensures { IfOk result (λ tree. tree ≡ self.now) }
    {
        let (nodes, marks) = copied_flags(alloc, &self.nodes, &self.marks)?;
        Ok(Tree {
            targets: Vec::from_slice(alloc, &self.targets)?,
            requests: Vec::from_slice(alloc, &self.requests)?,
            open_on: Vec::from_slice(alloc, &self.open_on)?,
            open_beneath: Vec::from_slice(alloc, &self.open_beneath)?,
            nodes,
            marks,
        })
    }

    /// How many objects the tree has. (This project's own rule.)
    #[inline(always)]
    pub fn objects(&self) -> u32
        ensures count { result ≡ length self.now.targets }
        ensures few { result ≤ max_objects }
    {
        self.targets.len() as u32
    }

    /// The target of an object. A moving object keeps its old one until no run is open on it.
    pub fn target(&self, o: Obj) -> Obj
        requires { o.0 < length self.now.targets }
        ensures target { result.0 ≡ target_at self.now o.0 }
        ensures in_range { result.0 < length self.now.targets }
        ensures valid { IsTree self.now }
    {
        self.targets[o.0 as usize]
    }

    /// The chain of an object: the object, its target and so on to `root`, at most all objects
    /// (dispatch_queue_create(3)). It takes no memory.
    pub fn chain(&self, o: Obj) -> Chain<'_>
        requires { o.0 < length self.now.targets }
        ensures chain { result ≡ chain_at self.now o.0 }
        ensures in_range { All (λ x. x < length self.now.targets) result }
        ensures no_longer { length result ≤ length self.now.targets }
    {
        Chain::along(&self.targets, o)
    }

    /// Whether a change of target is waiting until no run is open on the object (dispatch_set_target_queue(3)).
    pub fn is_moving(&self, o: Obj) -> bool
        requires { o.0 < length self.now.targets }
        ensures { result ≡ is_moving_at self.now o.0 }
    {
        self.requests[o.0 as usize].is_some()
    }

    /// How many runs are open on an object itself.
    pub fn open_on(&self, o: Obj) -> u32
        requires { o.0 < length self.now.targets }
        ensures { result ≡ open_on_at self.now o.0 }
    {
        self.open_on[o.0 as usize]
    }

    /// How many runs are open beneath an object: on it, and on each other object whose chain has it. Beneath `root` all
    /// are.
    #[tactic(auto, using(crate::proofs::TreeChanges::beneath_root))]
    pub fn open_beneath(&self, o: Obj) -> u32
        requires { o.0 < length self.now.targets }
        ensures beneath { result ≡ open_beneath_at self.now o.0 }
        ensures at_root { o.0 ≡ 0 → result ≡ sum self.now.open_on }
    {
        self.open_beneath[o.0 as usize]
    }

    /// Whether a run is open on any object: beneath `root` all open runs are. Every tree is valid, and callers may take that from
    /// here too. (This project's own rule.)
    #[inline(always)]
    pub fn any_open(&self) -> bool
        ensures open { result ≡ nat_lt 0 (open_beneath_at self.now 0) }
        ensures valid { IsTree self.now }
    {
        self.open_beneath[0] > 0
    }

    /// Whether no object has this one as its target, and none had it before. Of an object that lost all that had it as their
    /// target it does not say so. (This project's own rule.)
    #[inline(always)]
    pub fn is_never_target(&self, o: Obj) -> bool
        requires { o.0 < length self.now.targets }
        ensures { result ≡ true → (p : ℕ) → p < length self.now.targets → target_at self.now p ≢ o.0 }
    {
        !self.marks[o.0 as usize]
    }

    fn walk_next(&self, o: Obj) -> Obj
        requires { o.0 < length self.now.targets }
        ensures next { result.0 ≡ walk_next self.now o.0 }
        ensures in_range { result.0 < length self.now.targets }
    {
        match self.requests[o.0 as usize] {
            Some(t) => t,
            None => self.targets[o.0 as usize],
        }
    }

    /// Whether the object with the target `t` would be in a cycle: a walk from `t`, `t` itself included, reaches the
    /// object. The walk goes from a moving object to the target that it waits for, and from any other to its target
    /// (dispatch_set_target_queue(3)). It costs one walk.
    #[tactic(auto, using(crate::proofs::Walks::walk_on, crate::proofs::Walks::walk_stops))]
    pub fn would_cycle(&self, o: Obj, t: Obj) -> bool
        requires { t.0 < length self.now.targets }
        ensures { result ≡ would_cycle_at self.now o.0 t.0 }
    {
        let mut at = t;
        for _ in 0..self.targets.len() {
            if at.0 == o.0 {
                return true;
            }
            if at.0 == 0 {
                return false;
            }
            at = self.walk_next(at);
        }
        false
    }

    fn is_child(&self, o: Obj, p: Obj) -> bool
        requires { p.0 < length self.now.targets }
        ensures { result ≡ is_child_of self.now o.0 p.0 }
    {
        let at = p.0 as usize;
        p.0 != 0
            && self.nodes[at]
            && p.0 != o.0
            && (self.targets[at].0 == o.0 || self.requests[at] == Some(o))
    }

    /// Whether another object than `root` has the object as its target, or waits for it as its target. It costs a look
    /// at each object.
    #[tactic(auto, using(crate::proofs::Ranges::none_below))]
    pub fn has_child(&self, o: Obj) -> bool
        ensures { result ≡ has_child_at self.now o.0 }
    {
        for p in 0..self.targets.len() as u32 {
            if self.is_child(o, Obj(p)) {
                return true;
            }
        }
        false
    }

    /// Gives a queue or a source another target: at once where no run is open on it, and else as a request, in place of
    /// an earlier one, until the last of these runs closes (dispatch_set_target_queue(3)). [`Tree::would_cycle`],
    /// [`Tree::has_child`] and [`Tree::open_beneath`] are the tests of its conditions, and `Plan::kind` of what the object
    /// is.
    pub fn set_target(&mut self, o: Obj, t: Obj)
        requires object { o.0 < length self.old.targets }
        requires target { t.0 < length self.old.targets }
        requires node { is_node_at self.old o.0 ≡ true }
        requires no_cycle { would_cycle_at self.old o.0 t.0 ≡ false }
        requires quiet { has_child_at self.old o.0 ≡ true → open_beneath_at self.old o.0 ≡ 0 }
        ensures at_once { open_on_at self.old o.0 ≡ 0 → self.new ≡ with_target self.old o.0 t }
        ensures later { 0 < open_on_at self.old o.0 → self.new ≡ with_request self.old o.0 (Some t) }
    {
        // Where no run is open on the object, none is beneath it: it has no child, or nothing is open beneath. So no count
        // changes.
        if self.open_on[o.0 as usize] == 0 {
            self.targets[o.0 as usize] = t;
            self.marks[t.0 as usize] = true;
        } else {
            self.requests[o.0 as usize] = Some(t);
        }
    }

    /// One run more is open on the node. No object of its chain is moving, and all open runs together, which
    /// [`Tree::open_beneath`] tells of `root`, are fewer than 2^32 - 1.
    #[inline(always)]
    pub fn opened(&mut self, node: Obj)
        requires object { node.0 < length self.old.targets }
        requires still { has_mover_at self.old node.0 ≡ false }
        requires room { sum self.old.open_on + 1 < 2 ^ 32 }
        ensures { self.new ≡ with_open self.old node.0 (open_on_at self.old node.0 + 1) }
    {
        self.open_on[node.0 as usize] += 1;
        raise_along(&self.targets, &mut self.open_beneath, node);
    }

    /// One run less is open on the node, on which one is. Where it was the last, the target that the node waits for is
    /// its target from here on (dispatch_set_target_queue(3)).
    #[inline(always)]
    pub fn closed(&mut self, node: Obj)
        requires object { node.0 < length self.old.targets }
        requires open { 0 < open_on_at self.old node.0 }
        ensures others { 1 < open_on_at self.old node.0 → self.new ≡ with_open self.old node.0 (open_on_at self.old node.0 - 1) }
        ensures last { open_on_at self.old node.0 ≡ 1 → self.new ≡ settled (with_open self.old node.0 0) node.0 }
    {
        lower_along(&self.targets, &mut self.open_beneath, node);
        let at = node.0 as usize;
        self.open_on[at] -= 1;
        if self.open_on[at] > 0 {
            return;
        }
        // Beneath an object that is about to move only its own runs were open, and none is left. So no count moves to the
        // new chain.
        if let Some(t) = self.requests[at] {
            self.targets[at] = t;
            self.marks[t.0 as usize] = true;
            self.requests[at] = None;
        }
    }
}

// What waits and runs on the nodes.
ghost use Rattle.std.specs.Prelude.{◌≡◌, ◌<◌, Some, length};
ghost use Rattle.std.specs.Option.{option_map_or};
ghost use Rattle.gcd_plan.specs.declared.numbers.Obj.{Obj};
ghost use Rattle.gcd_lists.specs.ListsView.{list_at};
ghost use Rattle.gcd_refinement.specs.After.{pending_in, stays_busy};
ghost use Rattle.gcd_machine.specs.Steps.{begun_on, closed_on, run_begun, run_closed, submitted, taken_off};
ghost use Rattle.gcd_machine.specs.Conditions.{CanBegin, CanCloseOn, CanSubmit, CanTakeOff, HasPending};

use super::Registers;
use gcd_plan::{Blk, Obj};

impl Registers {
    // The run of a block opens on its node, if it has one.
    #[inline(always)]
    pub fn begin_run(&mut self, node: Option<Obj>, barrier: bool)
        requires { (n : Obj) → node ≡ Some n → CanBegin self.old n barrier }
        ensures { self.new ≡ run_begun self.old node barrier }
    {
        match node {
            Some(n) => self.begin_on(n, barrier),
            None => {}
        }
    }

    // The run of a block closes on its node, if it has one.
    #[inline(always)]
    pub fn close_run(&mut self, node: Option<Obj>, barrier: bool)
        requires { (n : Obj) → node ≡ Some n → CanCloseOn self.old n barrier }
        ensures { self.new ≡ run_closed self.old node barrier }
    {
        match node {
            Some(n) => self.close_on(n, barrier),
            None => {}
        }
    }

    // The run of the first block that waits on the node opens there.
    #[inline(always)]
    fn begin_on(&mut self, node: Obj, barrier: bool)
        requires { CanBegin self.old node barrier }
        ensures { self.new ≡ begun_on self.old node barrier }
    {
        self.take_off(node);
        self.tree.opened(node);
        self.drains.began(node, barrier);
    }

    // The first block that waits on the node leaves its list.
    #[inline(always)]
    fn take_off(&mut self, node: Obj)
        requires { CanTakeOff self.old node }
        ensures { self.new ≡ taken_off self.old node }
    {
        self.lists.pop(node);
        let stays = self.is_left_busy(node);
        self.busy.put(node.0, stays);
    }

    // The first block that waits on the node leaves its list, if there is a node.
    #[inline(always)]
    pub fn take_off_node(&mut self, node: Option<Obj>)
        requires { (n : Obj) → node ≡ Some n → CanTakeOff self.old n }
        ensures { self.new ≡ option_map_or (taken_off self.old) node self.old }
    {
        match node {
            Some(n) => self.take_off(n),
            None => {}
        }
    }

    // A run of the node closes there.
    #[inline(always)]
    fn close_on(&mut self, node: Obj, barrier: bool)
        requires { CanCloseOn self.old node barrier }
        ensures { self.new ≡ closed_on self.old node barrier }
    {
        self.valid_tree();
        let moves = self.tree.is_moving(node);
        self.tree.closed(node);
        self.drains.ended(node, barrier);
        if moves {
            self.held.rehold(&self.tree, &self.holds, node);
        }
    }

    // The block waits on the node behind all others.
    #[inline(always)]
    pub fn submit(&mut self, node: Obj, blk: Blk, barrier: bool)
        requires { CanSubmit self.old node blk }
        ensures { self.new ≡ submitted self.old node blk barrier }
    {
        self.lists.push(node, blk, barrier);
        self.blocks[blk.0 as usize].submit(node, barrier);
        self.busy.set(node.0);
        self.left += 1;
    }

    // Whether the node has to be looked at still: a block waits there, or something is pending.
    #[inline(always)]
    pub fn stays_busy(&self, node: Obj, pending: u64) -> bool
        requires { node.0 < length self.now.lists.lists }
        ensures { result ≡ stays_busy (length (list_at self.now.lists node.0)) pending }
    {
        self.lists.first(node).is_some() || pending > 0
    }

    // Whether a block waits on the node, or something is pending there. The second is looked at only if no block waits.
    #[inline(always)]
    fn is_left_busy(&self, node: Obj) -> bool
        requires list { node.0 < length self.now.lists.lists }
        requires pending { HasPending self.now node }
        ensures { result ≡ stays_busy (length (list_at self.now.lists node.0)) (pending_in self.now node.0) }
    {
        self.lists.first(node).is_some() || self.pending(node) > 0
    }

    // What is pending at the source, with the due times that no delivery took.
    #[inline(always)]
    pub fn pending(&self, src: Obj) -> u64
        requires { HasPending self.now src }
        ensures { result ≡ pending_in self.now src.0 }
    {
        let due = self.timers.due_count(src) - self.handlers[src.0 as usize].taken;
        self.sources.pending(src) + due
    }
}

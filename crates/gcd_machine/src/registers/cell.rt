// The record of a block in 12 bytes.
ghost use Rattle.std.specs.Prelude.{◌≡◌, ◌+◌, ◌<◌, ◌^◌, true, Some};
ghost use Rattle.gcd_machine.specs.Cells.{block_of_code, object_of_code};

use gcd_plan::{Blk, Obj};
use std::marker::Model;

/// How far a block has come ([`gcd_refinement::BlockProgress`]), in 12 bytes. Each number has two bytes. If there may be no number, 0 stands
/// for none, and the number plus 1 for the number.
#[derive(Clone, Copy)]
pub struct BlockCell {
    node: u16,
    group: u16,
    caller: u16,
    home: u16,
    done: u16,
    barrier: bool,
    started: bool,
}

const _: () = prove!(size_of::<BlockCell>() == 12);

impl Model for BlockCell {
    ghost use Rattle.gcd_refinement.specs.declared.progress.BlockProgress.{BlockProgress};
    ghost use Rattle.gcd_machine.specs.Cells.{cell_of, cell_of_progress, progress_of};

    ghost Value = { BlockProgress };

    ghost view = { progress_of };

    ghost inverse = { cell_of };

    ghost inverse_ok = { λ c _. cell_of_progress c };
}

// The code of a number: the number plus 1.
#[inline(always)]
fn code_of(n: u32) -> u16
    requires { n < 65535 }
    ensures { result ≡ n + 1 }
{
    n as u16 + 1
}

// The object of a code.
#[inline(always)]
fn object_in(code: u16) -> Option<Obj>
    ensures { result ≡ object_of_code code }
{
    match code {
        0 => None,
        code => Some(Obj(u32::from(code) - 1)),
    }
}

// The block of a code.
#[inline(always)]
fn block_in(code: u16) -> Option<Blk>
    ensures { result ≡ block_of_code code }
{
    match code {
        0 => None,
        code => Some(Blk(u32::from(code) - 1)),
    }
}

impl BlockCell {
    /// A block that nobody has submitted.
    pub const IDLE: BlockCell = BlockCell {
        node: 0,
        group: 0,
        caller: 0,
        home: 0,
        done: 0,
        barrier: false,
        started: false,
    };

    /// The queue or source on which it was submitted.
    #[inline(always)]
    pub fn node(self) -> Option<Obj>
        ensures { result ≡ self.node }
    {
        object_in(self.node)
    }

    /// Whether it was submitted as a barrier.
    #[inline(always)]
    pub fn is_barrier(self) -> bool
        ensures { result ≡ self.barrier }
    {
        self.barrier
    }

    /// Whether it has started.
    #[inline(always)]
    pub fn is_started(self) -> bool
        ensures { result ≡ self.started }
    {
        self.started
    }

    /// How many acts it has made.
    #[inline(always)]
    pub fn done(self) -> u32
        ensures { result ≡ self.done }
    {
        u32::from(self.done)
    }

    /// The group that counts it.
    #[inline(always)]
    pub fn group(self) -> Option<Obj>
        ensures { result ≡ self.group }
    {
        object_in(self.group)
    }

    /// The queue to which it goes once it is due.
    #[inline(always)]
    pub fn home(self) -> Obj
        ensures { result ≡ self.home }
    {
        Obj(u32::from(self.home))
    }

    /// The block that submitted it and waits for its end.
    #[inline(always)]
    pub fn caller(self) -> Option<Blk>
        ensures { result ≡ self.caller }
    {
        block_in(self.caller)
    }

    /// Notes that the block was submitted on the node, as a barrier or not.
    #[inline(always)]
    pub fn submit(&mut self, node: Obj, barrier: bool)
        requires { node.0 < 65535 }
        ensures { self.new ≡ record self.old { node = Some node; barrier = barrier } }
    {
        self.node = code_of(node.0);
        self.barrier = barrier;
    }

    /// Notes that the block has started.
    #[inline(always)]
    pub fn start(&mut self)
        ensures { self.new ≡ record self.old { started = true } }
    {
        self.started = true;
    }

    /// Counts one more act.
    #[inline(always)]
    pub fn count_act(&mut self)
        requires { self.old.done + 1 < 2 ^ 16 }
        ensures { self.new ≡ record self.old { done = self.old.done + 1 } }
    {
        self.done += 1;
    }

    /// Notes the group that counts the block.
    #[inline(always)]
    pub fn join(&mut self, group: Obj)
        requires { group.0 < 65535 }
        ensures { self.new ≡ record self.old { group = Some group } }
    {
        self.group = code_of(group.0);
    }

    /// Notes the queue to which the block goes once it is due.
    #[inline(always)]
    pub fn go_home_to(&mut self, queue: Obj)
        requires { queue.0 < 65536 }
        ensures { self.new ≡ record self.old { home = queue } }
    {
        self.home = queue.0 as u16;
    }

    /// Notes the block that submitted this one and waits for its end.
    #[inline(always)]
    pub fn call_from(&mut self, caller: Blk)
        requires { caller.0 < 65535 }
        ensures { self.new ≡ record self.old { caller = Some caller } }
    {
        self.caller = code_of(caller.0);
    }
}

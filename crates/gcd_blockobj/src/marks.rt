// What is kept of blocks as objects.
ghost use Rattle.std.specs.Prelude.{◌≡◌, ◌<◌, IfOk, IfSome, None, true, false, length, slice_set, slice_index_or};
ghost use Rattle.gcd_lists.specs.ListsView.{place_of};
ghost use Rattle.gcd_blockobj.specs.MarksView.{marks_of, is_cancelled_at, with_cancelled, with_begun, with_ended, with_notify, with_fired, fires_at, awaited_by};

use gcd_lists::Lists;
use gcd_plan::{Blk, Obj, Plan};
use gcd_sets::BitSet;
use std::alloc::{AllocError, Global};
use std::marker::Model;

/// Which blocks of a plan are cancelled, and which wait for the end of another to be submitted (dispatch_block_cancel(3),
/// dispatch_block_notify(3)). Contracts see it as plain lists by block (`MarksView`).
#[derive(Drop)]
pub struct Marks {
    // Each of the four is of each block, or of none where no act of the plan needs it.
    cancelled: BitSet,
    began: BitSet,
    ended: BitSet,
    // By block: those that are to be submitted once it has ended, in the order of registration.
    notify: Lists,
}

impl Model for Marks {
    ghost use Rattle.gcd_blockobj.specs.MarksView.{MarksView, AreMarks};

    ghost Value = { MarksView };

    ghost view = { λ m. record { cancelled = m.cancelled; began = m.began; ended = m.ended; notify = m.notify } };

    ghost invariant = { λ m. AreMarks (record { cancelled = m.cancelled; began = m.began; ended = m.ended; notify = m.notify }) };
}

// The block is in the set from now on, where there is a place for it.
#[inline(always)]
fn mark(set: &mut BitSet, blk: Blk)
    ensures { set.new ≡ slice_set set.old blk.0 true }
{
    if blk.0 < set.len() {
        set.set(blk.0);
    }
}

// Whether the block is in the set.
#[inline(always)]
fn is_marked(set: &BitSet, blk: Blk) -> bool
    ensures { result ≡ slice_index_or set.now blk.0 false }
{
    blk.0 < set.len() && set.has(blk.0)
}

impl Marks {
    /// The plan's blocks before the first event: none is cancelled, and none waits for the end of another
    /// (dispatch_block_create(3)). It takes all the memory that is ever needed: an `Err` comes only where memory runs out.
    pub fn new(alloc: Global, plan: &Plan) -> Result<Marks, AllocError>
        ensures { IfOk result (λ m. m ≡ marks_of plan.now) }
    {
        let room = plan.mark_room();
        Ok(Marks {
            cancelled: BitSet::new(alloc, room)?,
            began: BitSet::new(alloc, room)?,
            ended: BitSet::new(alloc, room)?,
            notify: Lists::of(alloc, room, room)?,
        })
    }

    /// Copies the marks. The copy takes all its memory at once, so an `Err` comes only if memory runs out.
    pub fn copied(&self, alloc: Global) -> Result<Marks, AllocError>
        ensures { IfOk result (λ m. m ≡ self.now) }
    {
        Ok(Marks {
            cancelled: self.cancelled.copied(alloc)?,
            began: self.began.copied(alloc)?,
            ended: self.ended.copied(alloc)?,
            notify: self.notify.copied(alloc)?,
        })
    }

    /// The block is cancelled from now on, if it has not started; else nothing changes (dispatch_block_cancel(3)).
    pub fn cancel(&mut self, b: Blk)
        ensures { self.new ≡ with_cancelled self.old b.0 }
    {
        if !is_marked(&self.began, b) {
            mark(&mut self.cancelled, b);
        }
    }

    /// The block has started: from now on a cancellation changes nothing (dispatch_block_cancel(3)).
    #[inline(always)]
    pub fn began(&mut self, b: Blk)
        ensures { self.new ≡ with_begun self.old b.0 }
    {
        mark(&mut self.began, b);
    }

    /// The block has ended: each block that waits for its end, and each that comes to wait for it, is due from now on
    /// (dispatch_block_notify(3)).
    pub fn ended(&mut self, b: Blk)
        ensures { self.new ≡ with_ended self.old b.0 }
    {
        mark(&mut self.ended, b);
    }

    /// Whether the block was cancelled before it started (dispatch_block_testcancel(3)).
    pub fn is_cancelled(&self, b: Blk) -> bool
        ensures { result ≡ is_cancelled_at self.now b.0 }
    {
        is_marked(&self.cancelled, b)
    }

    /// The second block waits to be submitted until the first has ended, behind all that wait for that
    /// (dispatch_block_notify(3)). It waits for no block before: [`Marks::awaited`] is the test. Marks are kept of both:
    /// [`Plan::mark_room`] tells of how many.
    pub fn notify(&mut self, b: Blk, c: Blk)
        requires awaited { b.0 < length self.old.notify.lists }
        requires waiting { c.0 < self.old.notify.blocks }
        requires waits_for_none { place_of self.old.notify c.0 ≡ None }
        ensures { self.new ≡ with_notify self.old b.0 c }
    {
        self.notify.push(Obj(b.0), c, false);
    }

    /// The block for whose end this one waits to be submitted, until it fires; None exactly where it waits for none
    /// (dispatch_block_notify(3)).
    pub fn awaited(&self, c: Blk) -> Option<Blk>
        requires { c.0 < self.now.notify.blocks }
        ensures { result ≡ awaited_by self.now c.0 }
    {
        let (node, _) = self.notify.place(c)?;
        Some(Blk(node.0))
    }

    /// Takes the block that waited first for the end of this one, where that has come, and gives it: it is to be submitted, and
    /// waits for no block afterwards. None exactly where none is due, and then nothing changes (dispatch_block_notify(3)).
    #[inline(always)]
    pub fn fired(&mut self, b: Blk) -> Option<Blk>
        ensures value { result ≡ fires_at self.old b.0 }
        ensures rest { IfSome result (λ c. self.new ≡ with_fired self.old b.0) }
        ensures none { result ≡ None → self.new ≡ self.old }
        ensures gone { IfSome result (λ c. place_of self.new.notify c.0 ≡ None) }
        ensures within { IfSome result (λ c. c.0 < self.old.notify.blocks) }
    {
        if !is_marked(&self.ended, b) {
            return None;
        }
        let (blk, _) = self.notify.pop(Obj(b.0))?;
        Some(blk)
    }
}

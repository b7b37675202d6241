// The groups.
ghost use Rattle.std.specs.Prelude.{◌≡◌, ◌+◌, ◌-◌, ◌<◌, ◌^◌, ◌↔◌, IfOk, IfSome, IsSome, None, length};
ghost use Rattle.gcd_lists.specs.ListsView.{place_of};
ghost use Rattle.gcd_group.specs.GroupsView.{groups_of, count_at, entered_at, is_empty_since, with_one_more, with_one_less, with_entered, with_notify, with_fired, fires_at, due_at, notify_group_of};

use gcd_lists::Lists;
use gcd_plan::{Blk, Obj, Plan};
use std::alloc::{AllocError, Global};
use std::marker::Model;

/// What each group of a plan counts, when it was empty, and the blocks that are to be told (dispatch_group_create(3)).
/// Contracts see it as plain lists by object (`GroupsView`).
#[derive(Drop)]
pub struct Groups {
    counts: Vec<u32>,
    entered: Vec<u32>,
    emptied: Vec<u32>,
    // By group: its notify blocks, in the order of registration, and how many they are.
    notify: Lists,
    registered: Vec<u32>,
    // By group: how many of its notify blocks are due, from the first on.
    due: Vec<u32>,
}

impl Model for Groups {
    ghost use Rattle.gcd_group.specs.GroupsView.{GroupsView};

    ghost Value = { GroupsView };

    ghost use Rattle.gcd_group.specs.Inside.{view_of, InsideAgrees};

    ghost view = { view_of };

    ghost invariant = { InsideAgrees };
}

impl Groups {
    /// The plan's groups before the first event: all are empty (dispatch_group_create(3)). It takes all the memory that the
    /// groups ever need: an `Err` comes only where memory runs out.
    pub fn new(alloc: Global, plan: &Plan) -> Result<Groups, AllocError>
        ensures { IfOk result (λ g. g ≡ groups_of plan.now) }
    {
        let objects = plan.objects() as usize;
        Ok(Groups {
            counts: vec![in alloc; 0; objects]?,
            entered: vec![in alloc; 0; objects]?,
            emptied: vec![in alloc; 0; objects]?,
            notify: Lists::new(alloc, plan)?,
            registered: vec![in alloc; 0; objects]?,
            due: vec![in alloc; 0; objects]?,
        })
    }

    /// Copies the groups. The copy takes all its memory at once, so an `Err` comes only if memory runs out.
    pub fn copied(&self, alloc: Global) -> Result<Groups, AllocError>
        ensures { IfOk result (λ g. g ≡ self.now) }
    {
        Ok(Groups {
            counts: Vec::from_slice(alloc, &self.counts)?,
            entered: Vec::from_slice(alloc, &self.entered)?,
            emptied: Vec::from_slice(alloc, &self.emptied)?,
            notify: self.notify.copied(alloc)?,
            registered: Vec::from_slice(alloc, &self.registered)?,
            due: Vec::from_slice(alloc, &self.due)?,
        })
    }

    /// How many the group counts: its blocks that are submitted and not ended, and its enters less its leaves
    /// (dispatch_group_create(3), dispatch_group_async(3)).
    pub fn count(&self, g: Obj) -> u32
        requires { g.0 < length self.now.counts }
        ensures { result ≡ count_at self.now g.0 }
    {
        self.counts[g.0 as usize]
    }

    /// How many enters of the group no leave has answered; a leave where there is none is one too many
    /// (dispatch_group_enter(3), dispatch_group_leave(3)).
    pub fn entered(&self, g: Obj) -> u32
        requires { g.0 < length self.now.counts }
        ensures { result ≡ entered_at self.now g.0 }
    {
        self.entered[g.0 as usize]
    }

    /// Whether the group was empty at some position of the history from this one on, at most its present length: a wait
    /// that began there passes (dispatch_group_wait(3)). A group that has been empty since, and counts again, passes too.
    pub fn empty_since(&self, g: Obj, position: u32) -> bool
        requires { g.0 < length self.now.counts }
        ensures { result ≡ is_empty_since self.now g.0 position }
    {
        self.counts[g.0 as usize] == 0 || position <= self.emptied[g.0 as usize]
    }

    /// The group whose notify block this is, until it fires; None exactly where it is none's (dispatch_group_notify(3)).
    pub fn notify_group(&self, blk: Blk) -> Option<Obj>
        requires { blk.0 < self.now.notify.blocks }
        ensures { result ≡ notify_group_of self.now blk.0 }
    {
        let (group, _) = self.notify.place(blk)?;
        Some(group)
    }

    /// The group is entered, in the event after which the history is `at` long (dispatch_group_enter(3)). The count stays
    /// below 2^32: [`Groups::count`] is the test.
    pub fn enter(&mut self, g: Obj, at: u32)
        requires group { g.0 < length self.old.counts }
        requires room { count_at self.old g.0 + 1 < 2 ^ 32 }
        requires after_an_event { 0 < at }
        ensures { self.new ≡ with_entered (with_one_more self.old g.0 at) g.0 (entered_at self.old g.0 + 1) }
    {
        self.count_up(g, at);
        self.entered[g.0 as usize] += 1;
    }

    /// The group is left, in the event after which the history is `at` long (dispatch_group_leave(3)). An enter is
    /// outstanding: [`Groups::entered`] is the test. Where none is left in the group, its notify blocks are due.
    pub fn leave(&mut self, g: Obj, at: u32)
        requires group { g.0 < length self.old.counts }
        requires entered { 0 < entered_at self.old g.0 }
        ensures { self.new ≡ with_entered (with_one_less self.old g.0 at) g.0 (entered_at self.old g.0 - 1) }
    {
        self.entered[g.0 as usize] -= 1;
        self.count_down(g, at);
    }

    /// A block of the group is submitted, in the event after which the history is `at` long (dispatch_group_async(3)). The
    /// count stays below 2^32: [`Groups::count`] is the test.
    pub fn added(&mut self, g: Obj, at: u32)
        requires group { g.0 < length self.old.counts }
        requires room { count_at self.old g.0 + 1 < 2 ^ 32 }
        requires after_an_event { 0 < at }
        ensures { self.new ≡ with_one_more self.old g.0 at }
    {
        self.count_up(g, at);
    }

    /// A block of the group has ended, in the event after which the history is `at` long (dispatch_group_async(3)). One
    /// more is counted than entered: [`Groups::count`] and [`Groups::entered`] are the test. Where none is left in the
    /// group, its notify blocks are due.
    pub fn done(&mut self, g: Obj, at: u32)
        requires group { g.0 < length self.old.counts }
        requires submitted { entered_at self.old g.0 < count_at self.old g.0 }
        ensures { self.new ≡ with_one_less self.old g.0 at }
    {
        self.count_down(g, at);
    }

    /// The block is to be told when the group is empty, after those that are to be told before it; where the group is empty
    /// it is due at once (dispatch_group_notify(3)). It is to be told of no group yet: [`Groups::notify_group`] is the
    /// test.
    pub fn notify(&mut self, g: Obj, blk: Blk)
        requires group { g.0 < length self.old.counts }
        requires blk { blk.0 < self.old.notify.blocks }
        requires of_no_group { place_of self.old.notify blk.0 ≡ None }
        ensures { self.new ≡ with_notify self.old g.0 blk }
    {
        let empty = self.counts[g.0 as usize] == 0;
        self.notify.push(g, blk, false);
        let registered = self.registered[g.0 as usize] + 1;
        self.registered[g.0 as usize] = registered;
        if empty {
            self.due[g.0 as usize] = registered;
        }
    }

    /// Takes the notify block of the group that is due next, in the order of registration, and gives it; it is to be told
    /// of no group afterwards. None exactly where no block of the group is due, and then nothing changes
    /// (dispatch_group_notify(3)).
    pub fn fired(&mut self, g: Obj) -> Option<Blk>
        requires { g.0 < length self.old.counts }
        ensures value { result ≡ fires_at self.old g.0 }
        ensures due { IsSome result ↔ 0 < due_at self.old g.0 }
        ensures rest { IfSome result (λ blk. self.new ≡ with_fired self.old g.0) }
        ensures none { result ≡ None → self.new ≡ self.old }
        ensures gone { IfSome result (λ blk. place_of self.new.notify blk.0 ≡ None) }
        ensures within { IfSome result (λ blk. blk.0 < self.old.notify.blocks) }
    {
        if self.due[g.0 as usize] == 0 {
            return None;
        }
        let (blk, _) = self.notify.pop(g)?;
        self.registered[g.0 as usize] -= 1;
        self.due[g.0 as usize] -= 1;
        Some(blk)
    }

    // One more is counted in the group.
    fn count_up(&mut self, g: Obj, at: u32)
        requires group { g.0 < length self.old.counts }
        requires room { count_at self.old g.0 + 1 < 2 ^ 32 }
        requires after_an_event { 0 < at }
        ensures counts { self.new ≡ with_one_more self.old g.0 at }
        ensures not_of_an_enter { entered_at self.new g.0 < count_at self.new g.0 }
    {
        if self.counts[g.0 as usize] == 0 {
            self.emptied[g.0 as usize] = at - 1;
        }
        self.counts[g.0 as usize] += 1;
    }

    // One less is counted in the group; where that leaves none, all its notify blocks are due.
    fn count_down(&mut self, g: Obj, at: u32)
        requires group { g.0 < length self.old.counts }
        requires not_of_an_enter { entered_at self.old g.0 < count_at self.old g.0 }
        ensures { self.new ≡ with_one_less self.old g.0 at }
    {
        if self.counts[g.0 as usize] == 1 {
            self.emptied[g.0 as usize] = at;
            self.due[g.0 as usize] = self.registered[g.0 as usize];
        }
        self.counts[g.0 as usize] -= 1;
    }
}

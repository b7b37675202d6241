// What groups count, and what follows where one is empty.
ghost use Rattle.std.specs.Prelude.{◌≡◌, Some};
ghost use Rattle.gcd_plan.specs.declared.numbers.Obj.{Obj};
ghost use Rattle.gcd_machine.specs.Steps.{all_fired_at, emptied, left_group, left_by_act, member_left, member_submitted, registered};
ghost use Rattle.gcd_machine.specs.Conditions.{CanFire, CanEmpty, CanLeave, CanLeaveByAct, CanSubmitMember, CanRegister};

use super::Registers;
use gcd_plan::{Blk, Obj};

impl Registers {
    // The block is submitted to the queue as a member of the group (dispatch_group_async(3)).
    pub fn submit_member(&mut self, g: Obj, queue: Obj, blk: Blk)
        requires { CanSubmitMember self.old g queue blk }
        ensures { self.new ≡ member_submitted self.old g queue blk }
    {
        self.groups.added(g, self.len + 1);
        self.blocks[blk.0 as usize].join(g);
        self.submit(queue, blk, false);
    }

    // The block goes to the queue once the group is empty, at once where it is so (dispatch_group_notify(3)).
    pub fn register(&mut self, g: Obj, queue: Obj, blk: Blk)
        requires { CanRegister self.old g queue blk }
        ensures { self.new ≡ registered self.old g queue blk }
    {
        self.blocks[blk.0 as usize].go_home_to(queue);
        self.groups.notify(g, blk);
        self.fire(g);
    }

    // The group that counted a block has one member less, if there is one.
    pub fn leave_group(&mut self, group: Option<Obj>)
        requires { (g : Obj) → group ≡ Some g → CanLeave self.old g }
        ensures { self.new ≡ member_left self.old group }
    {
        match group {
            Some(g) => self.leave(g),
            None => {}
        }
    }

    // A member of the group has ended (dispatch_group_async(3)).
    fn leave(&mut self, g: Obj)
        requires { CanLeave self.old g }
        ensures { self.new ≡ left_group self.old g }
    {
        let last = self.groups.count(g) == 1;
        self.groups.done(g, self.len + 1);
        if last {
            self.empty(g);
        }
    }

    // The group is left once more (dispatch_group_leave(3)).
    pub fn leave_by_act(&mut self, g: Obj)
        requires { CanLeaveByAct self.old g }
        ensures { self.new ≡ left_by_act self.old g }
    {
        let last = self.groups.count(g) == 1;
        self.groups.leave(g, self.len + 1);
        if last {
            self.empty(g);
        }
    }

    // The group is empty: each block that sleeps there may wake, and its notify blocks are submitted, in the order of their
    // registration (dispatch_group_wait(3), dispatch_group_notify(3)).
    fn empty(&mut self, g: Obj)
        requires { CanEmpty self.old g }
        ensures { self.new ≡ emptied self.old g }
    {
        self.let_all_go(g);
        self.fire(g);
    }

    // Each notify block of the group that is due is submitted.
    fn fire(&mut self, g: Obj)
        requires { CanFire self.old g }
        ensures { self.new ≡ all_fired_at self.old g }
    {
        while let Some(blk) = self.groups.fired(g) {
            let home = self.blocks[blk.0 as usize].home();
            self.submit(home, blk, false);
        }
    }
}

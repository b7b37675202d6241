// The outside of a run: poller and clock, which only worker 0 has, and its notes on them.
ghost use Rattle.std.specs.Prelude.{◌≡◌, ◌≤◌, [], ℕ, true, List, drop, IfSome, OnSome, IfNone, OnOk, OnErr};
ghost use Rattle.gcd_event.specs.declared.event.Event.{Event};
ghost use Rattle.gcd_event.specs.declared.event.Event.TheVariants.{Halt};
ghost use Rattle.gcd_history.specs.History.{choice_of};
ghost use Rattle.gcd_machine.specs.Stands.{StandsFor};
ghost use Rattle.gcd_outer.specs.Outside.{seen};
ghost use Rattle.gcd_turn.specs.Asked.{AsksFor, AsksOnFor, HasFailed, HasNotFailed, HasWatched, HearsIdle, HearsOn, KeepsListens, WaitsFor};
ghost use Rattle.gcd_turn.specs.Outsides.{IsFirst, IsSame, faced};

use crate::ask::Ask;
use crate::outlook::Outlook;
use crate::steps::{
    Time, event_of, is_over, live_feed_from, next_time, poll_wait, wait, watch_new,
};
use gcd_event::Event;
use gcd_machine::Machine;
use gcd_outer::{Clock, Failed, Poller, Told};
use gcd_plan::Plan;

/// The outside of a run. It outlives the recorder of the events. A second recorder that gets the same outside goes on with the news that were
/// not recorded yet, with the moment at which the run began, and with the moments from which waits count.
#[derive(Drop)]
pub struct Outside<'a, P, C> {
    /// Worker 0's notes between its turns.
    pub outlook: Outlook,
    /// Tells of what the read sources of a plan read, and listens.
    pub poller: &'a mut P,
    /// Tells the time, and waits.
    pub clock: &'a mut C,
}

impl<'a, P: Poller, C: Clock> Outside<'a, P, C> {
    /// Makes the outside before the first turn. It asks the clock once.
    pub fn new(poller: &'a mut P, clock: &'a mut C) -> Outside<'a, P, C>
        ensures same_poller { result.poller.ghost_name ≡ poller.entry.ghost_name }
        ensures same_clock { result.clock.ghost_name ≡ clock.entry.ghost_name }
        ensures poller { result.poller.now ≡ poller.old }
        ensures first { IsFirst C.tells (C.state clock.old) (C.state result.clock.now) result.outlook }
    {
        Outside {
            outlook: Outlook::new(clock.now()),
            poller,
            clock,
        }
    }

    /// Takes the first steps of a turn of a run with at most `most` events. If the run has ended, it says to leave. Otherwise it watches new
    /// live feeds, and returns the first of the news. Without news, it asks to see to an open intake, or goes on as [`Outside::ask_on`] does.
    /// It asks the clock only if there is no news, no intake is open and a due time is left. It asks the machine for one choice, and for a
    /// second one only if the run is quiescent.
    #[inline(always)]
    pub fn ask(&mut self, plan: &Plan, most: u32, machine: &Machine) -> Ask
        requires { machine.now.plan ≡ plan.now }
        ensures same { IsSame self.old self.new }
        ensures outlook { self.new.outlook ≡ self.old.outlook }
        ensures asked { AsksFor machine.now plan.now most (faced P.tells C.tells P.state C.state self.old self.new) result }
        ensures heard { HearsOn machine.now plan.now P.tells
            (P.state self.old.poller.now) (P.state self.new.poller.now) self.old.outlook self.new.outlook }
        ensures kept { KeepsListens P.tells (P.state self.old.poller.now) (P.state self.new.poller.now) }
        ensures goes_on { (C.state self.old.clock.now).present ≤ (C.state self.new.clock.now).present }
        ensures waited { C.tells ≡ true → (C.state self.new.clock.now).waited ≡ (C.state self.old.clock.now).waited }
    {
        let chosen = machine.choose(0, 0);
        if is_over(machine, most, chosen) {
            return Ask::Leave;
        }
        if watch_new(plan, machine, self.poller).is_err() {
            return Ask::Put(Event::Halt);
        }
        if let Some(tell) = self.outlook.first() {
            return Ask::Told(event_of(tell));
        }
        if machine.intake_open() {
            return Ask::Open { chosen };
        }
        self.ask_on(plan, machine, chosen)
    }

    /// Takes the later steps of a turn without news, in which nothing was put for an open intake. It returns a Tick that is due, or the Expire
    /// of a wait that may expire, or `chosen`, which is worker 0's choice. It asks the clock only if a due time is left.
    #[inline(always)]
    pub fn ask_on(&mut self, plan: &Plan, machine: &Machine, chosen: Option<Event>) -> Ask
        requires no_news { self.old.outlook.news ≡ [] }
        requires chosen { (h : List Event) → StandsFor machine.now plan.now h → choice_of plan.now h 0 0 ≡ chosen }
        ensures same { IsSame self.old self.new }
        ensures outlook { self.new.outlook ≡ self.old.outlook }
        ensures poller { self.new.poller.now ≡ self.old.poller.now }
        ensures asked { AsksOnFor machine.now plan.now self.old.outlook (seen C.tells C.state self.old.clock.now self.new.clock.now) result }
        ensures goes_on { (C.state self.old.clock.now).present ≤ (C.state self.new.clock.now).present }
        ensures waited { C.tells ≡ true → (C.state self.new.clock.now).waited ≡ (C.state self.old.clock.now).waited }
    {
        match next_time(self.outlook.start(), plan, machine, self.clock) {
            Time::Tick(at) => Ask::Put(Event::Tick { at }),
            Time::Left(left) => match machine.expiry() {
                Some(expire) => Ask::Put(expire),
                None => Ask::Work { chosen, left },
            },
        }
    }

    /// Drops the first of the news, because it was recorded or is not permitted. Without news it does nothing.
    pub fn settle(&mut self)
        ensures same { IsSame self.old self.new }
        ensures outlook { self.new.outlook ≡ record self.old.outlook { news = drop 1 self.old.outlook.news } }
        ensures poller { self.new.poller.now ≡ self.old.poller.now }
        ensures clock { self.new.clock.now ≡ self.old.clock.now }
    {
        self.outlook.settle();
    }

    // Polls once.
    fn listen(&mut self, plan: &Plan, machine: &Machine, left: Option<u32>) -> Result<(), Failed>
        requires own { machine.now.plan ≡ plan.now }
        requires no_news { self.old.outlook.news ≡ [] }
        requires some { (feed : ℕ) × ((P.state self.old.poller.now).watched feed ≡ true) }
        ensures same { IsSame self.old self.new }
        ensures heard { HearsIdle machine.now plan.now P.tells
            (P.state self.old.poller.now) (P.state self.new.poller.now) self.old.outlook self.new.outlook }
        ensures start { self.new.outlook.start ≡ self.old.outlook.start }
        ensures clock { self.new.clock.now ≡ self.old.clock.now }
        ensures kept { KeepsListens P.tells (P.state self.old.poller.now) (P.state self.new.poller.now) }
        ensures ok { OnOk result (HasNotFailed (P.state self.old.poller.now) (P.state self.new.poller.now)) }
        ensures failed { OnErr result (HasFailed (P.state self.old.poller.now) (P.state self.new.poller.now)) }
    {
        let wait = poll_wait(machine, left);
        let mut told = Told::new();
        self.poller.poll(wait, &mut told)?;
        if wait == 0 {
            self.outlook.hear(&told);
            return Ok(());
        }
        if told.is_empty_answer() {
            self.outlook.count_empty(plan, machine);
            return Ok(());
        }
        self.outlook.hear(&told);
        Ok(())
    }

    /// Takes the last steps of a turn in which worker 0 has no choice. If a feed is live, it polls. Otherwise it waits for the next due time, if
    /// there is one, which is `left` milliseconds ahead, and if no run is open and unparked and no intake is open. If the poller failed, it
    /// returns a Halt, to be recorded.
    pub fn idle(&mut self, plan: &Plan, machine: &Machine, left: Option<u32>) -> Option<Event>
        requires own { machine.now.plan ≡ plan.now }
        requires no_news { self.old.outlook.news ≡ [] }
        requires watched { HasWatched machine.now plan.now (P.state self.old.poller.now) }
        ensures same { IsSame self.old self.new }
        ensures heard { HearsIdle machine.now plan.now P.tells
            (P.state self.old.poller.now) (P.state self.new.poller.now) self.old.outlook self.new.outlook }
        ensures start { self.new.outlook.start ≡ self.old.outlook.start }
        ensures kept { KeepsListens P.tells (P.state self.old.poller.now) (P.state self.new.poller.now) }
        ensures halt { IfSome result (λ e. e ≡ Halt) }
        ensures failed { OnSome result (HasFailed (P.state self.old.poller.now) (P.state self.new.poller.now)) }
        ensures unfailed { IfNone result (HasNotFailed (P.state self.old.poller.now) (P.state self.new.poller.now)) }
        ensures goes_on { (C.state self.old.clock.now).present ≤ (C.state self.new.clock.now).present }
        ensures waited { WaitsFor machine.now plan.now C.tells self.old.outlook.start
            (C.state self.old.clock.now) (C.state self.new.clock.now) }
    {
        if live_feed_from(plan, machine, 0).is_some() {
            return match self.listen(plan, machine, left) {
                Ok(()) => None,
                Err(Failed) => Some(Event::Halt),
            };
        }
        wait(self.outlook.start(), plan, machine, self.clock);
        None
    }
}

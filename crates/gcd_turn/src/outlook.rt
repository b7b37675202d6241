// What worker 0 keeps of the outside between its turns.
ghost use Rattle.std.specs.Prelude.{◌≡◌, ◌<◌, [], List, drop, slice_get};
ghost use Rattle.gcd_event.specs.declared.event.Event.{Event};
ghost use Rattle.gcd_machine.specs.Stands.{StandsFor};
ghost use Rattle.gcd_turn.specs.declared.limits.TheConstants.{EMPTY_ANSWERS};
ghost use Rattle.gcd_turn.specs.Turns.{counted, news_of, row_with};

use crate::limits::EMPTY_ANSWERS;
use crate::news::News;
use gcd_machine::Machine;
use gcd_outer::{Tell, Told};
use gcd_plan::Plan;
use std::marker::Model;

/// What worker 0 keeps of poller and clock between its turns.
#[derive(Drop)]
pub struct Outlook {
    // The clock's answer before the first turn.
    start: u64,
    // What was told and is not yet recorded.
    news: News,
    // How many empty answers came in a row, and how many events there were at the last of them.
    empties: u32,
    len: u32,
}

impl Model for Outlook {
    ghost use Rattle.std.specs.Prelude.{◌<◌};
    ghost use Rattle.gcd_turn.specs.Turns.{OutlookView};
    ghost use Rattle.gcd_turn.specs.declared.limits.TheConstants.{EMPTY_ANSWERS};

    ghost Value = { OutlookView };

    ghost view = { λ o. record { start = o.start; news = o.news; empties = o.empties; len = o.len } };

    ghost invariant = { λ o. o.empties < EMPTY_ANSWERS };
}

impl Outlook {
    // Before the first turn, which begins at this moment.
    pub(crate) fn new(start: u64) -> Outlook
        ensures { result ≡ record { start = start; news = []; empties = 0; len = 0 } }
    {
        Outlook {
            start,
            news: News::new(),
            empties: 0,
            len: 0,
        }
    }

    #[inline(always)]
    pub(crate) fn start(&self) -> u64
        ensures { result ≡ self.now.start }
    {
        self.start
    }

    // The first of what was told and is not yet recorded.
    #[inline(always)]
    pub(crate) fn first(&self) -> Option<Tell>
        ensures { result ≡ slice_get self.now.news 0 }
    {
        self.news.first()
    }

    // The first of what was told is settled. Without news it does nothing.
    pub(crate) fn settle(&mut self)
        ensures { self.new ≡ record self.old { news = drop 1 self.old.news } }
    {
        self.news.settle();
    }

    // How many empty answers came in a row with one more, where there are now so many events.
    fn row_with(&self, len: u32) -> u32
        ensures { result ≡ row_with self.now len }
    {
        if self.len == len {
            return self.empties + 1;
        }
        1
    }

    // An empty answer to a wait: it is counted where the history has not grown since the last; at the last of the count each
    // live feed is taken to have ended.
    pub(crate) fn count_empty(&mut self, plan: &Plan, machine: &Machine)
        requires { machine.now.plan ≡ plan.now }
        ensures counted { (h : List Event) → StandsFor machine.now plan.now h → self.new ≡ counted plan.now h self.old }
        ensures start { self.new.start ≡ self.old.start }
        ensures few { self.old.empties < EMPTY_ANSWERS }
    {
        let row = self.row_with(machine.len());
        self.len = machine.len();
        if row < EMPTY_ANSWERS {
            self.empties = row;
            return;
        }
        self.empties = 0;
        self.news.take_ends(plan, machine);
    }

    // What was told is news, and the row of empty answers ends.
    pub(crate) fn hear(&mut self, told: &Told)
        ensures { self.new ≡ record self.old { news = news_of told.now; empties = 0 } }
    {
        self.empties = 0;
        self.news.take(told);
    }
}

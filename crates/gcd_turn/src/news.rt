// What was told and is not yet recorded.
ghost use Rattle.std.specs.Prelude.{◌≡◌, ◌≤◌, ◌<◌, ◌+◌, ◌++◌, ◌==◌, ◌∷◌, [], List, drop, if◌then◌else◌, length, slice_get, true, false};
ghost use Rattle.arrayvec.specs.ArrayVec.{array_vec_len};
ghost use Rattle.gcd_plan.specs.PlanView.{PlanView};
ghost use Rattle.gcd_event.specs.declared.event.Event.{Event};
ghost use Rattle.gcd_machine.specs.Stands.{StandsFor};
ghost use Rattle.gcd_turn.specs.Turns.{bytes_news, end_news, end_of, ends_of, news_by, news_of};

use crate::limits::MAX_NEWS;
use crate::steps::live_feed_from;
use arrayvec::ArrayVec;
use gcd_machine::Machine;
use gcd_outer::{Tell, Told};
use gcd_plan::Plan;
use std::marker::Model;

// Pieces of news, each bytes or an end of a feed, in order; those before `next` are settled. It takes no memory but its own.
#[derive(Drop)]
pub(crate) struct News {
    pieces: ArrayVec<Tell, MAX_NEWS>,
    next: usize,
}

impl Model for News {
    ghost use Rattle.std.specs.Prelude.{List, drop};
    ghost use Rattle.gcd_outer.specs.declared.tell.Tell.{Tell};

    ghost Value = { List Tell };

    ghost view = { λ n. drop n.next n.pieces.items };
}

// The bytes of a tell, if there are any, at the end.
fn push_bytes(pieces: &mut ArrayVec<Tell, MAX_NEWS>, tell: Tell)
    requires { array_vec_len pieces.old < MAX_NEWS }
    ensures pieces { pieces.new.items ≡ pieces.old.items ++ bytes_news tell }
    ensures more { array_vec_len pieces.new ≤ array_vec_len pieces.old + 1 }
{
    if tell.bytes > 0 {
        pieces.push(Tell {
            feed: tell.feed,
            bytes: tell.bytes,
            ended: false,
        });
    }
}

// The end of a tell, if it has one, at the end.
fn push_end(pieces: &mut ArrayVec<Tell, MAX_NEWS>, tell: Tell)
    requires { array_vec_len pieces.old < MAX_NEWS }
    ensures pieces { pieces.new.items ≡ pieces.old.items ++ end_news tell }
    ensures more { array_vec_len pieces.new ≤ array_vec_len pieces.old + 1 }
{
    if tell.ended {
        pieces.push(Tell {
            feed: tell.feed,
            bytes: 0,
            ended: true,
        });
    }
}

// The news of a tell, at the end.
fn push_news(pieces: &mut ArrayVec<Tell, MAX_NEWS>, tell: Tell)
    requires { array_vec_len pieces.old + 2 ≤ MAX_NEWS }
    ensures pieces { pieces.new.items ≡ pieces.old.items ++ news_by tell }
    ensures more { array_vec_len pieces.new ≤ array_vec_len pieces.old + 2 }
{
    push_bytes(pieces, tell);
    push_end(pieces, tell);
}

impl News {
    pub(crate) fn new() -> News
        ensures { result ≡ [] }
    {
        News {
            pieces: ArrayVec::new(),
            next: 0,
        }
    }

    #[inline(always)]
    pub(crate) fn first(&self) -> Option<Tell>
        ensures { result ≡ slice_get self.now 0 }
    {
        self.pieces.get(self.next).copied()
    }

    // The first piece is settled, if there is one.
    pub(crate) fn settle(&mut self)
        ensures { self.new ≡ drop 1 self.old }
    {
        if self.next < self.pieces.len() {
            self.next += 1;
        }
    }

    // The news of an answer, in place of all that there was.
    pub(crate) fn take(&mut self, told: &Told)
        ensures { self.new ≡ news_of told.now }
    {
        self.pieces.clear();
        self.next = 0;
        for tell in told.as_slice() {
            push_news(&mut self.pieces, *tell);
        }
    }

    // An end of each live feed, by number, in place of all that there was.
    pub(crate) fn take_ends(&mut self, plan: &Plan, machine: &Machine)
        requires { machine.now.plan ≡ plan.now }
        ensures { (h : List Event) → StandsFor machine.now plan.now h → self.new ≡ ends_of plan.now h }
    {
        self.pieces.clear();
        self.next = 0;
        let mut from = 0;
        while let Some(src) = live_feed_from(plan, machine, from) {
            self.pieces.push(Tell {
                feed: src.0,
                bytes: 0,
                ended: true,
            });
            from = src.0 + 1;
        }
    }
}

// The semaphores.
ghost use Rattle.std.specs.Prelude.{◌≡◌, ◌+◌, ◌<◌, ◌≤◌, ◌^◌, pos, ◌-ℤ◌, IfOk, cond, false, min, length};
ghost use Rattle.gcd_sema.specs.Cells.{IsNext};
ghost use Rattle.gcd_sema.specs.SemasView.{semas_of, room_at, signals_at, waits_at, is_passed_at, is_expired_at, has_value_at, is_below_first_at, value_at, with_signals, with_wait, with_expired};

use crate::first::first_values;
use crate::rooms::{bases, rooms};
use gcd_plan::{Obj, Plan};
use std::alloc::{AllocError, Global};
use std::marker::Model;

/// How often each semaphore of a plan was signalled, and each wait for it, beside its first value
/// (dispatch_semaphore_create(3)). Contracts see it as plain lists by object (`SemasView`).
#[derive(Drop)]
pub struct Semas {
    firsts: Vec<u32>,
    signals: Vec<u32>,
    // By semaphore: how many waits have begun, and how many of them have not expired.
    given: Vec<u32>,
    left: Vec<u32>,
    // By semaphore: how many of its waits have passed or expired, from the first on.
    reached: Vec<u32>,
    // Where its cells begin, and at the end where those of the last one end; by cell, whether that wait has expired.
    bases: Vec<u32>,
    expired: Vec<bool>,
}

impl Model for Semas {
    ghost use Rattle.gcd_sema.specs.SemasView.{SemasView};

    ghost Value = { SemasView };

    ghost use Rattle.gcd_sema.specs.Cells.{view_of, InsideAgrees};

    ghost view = { view_of };

    ghost invariant = { InsideAgrees };
}

// From this wait on the first that has not expired, or the end.
fn unexpired_from(waits: &[bool], from: u32) -> u32
    requires from { from ≤ length waits.now }
    requires few { length waits.now < 2 ^ 32 }
    ensures { IsNext waits.now from result }
{
    for at in from..waits.len() as u32 {
        if !waits[at as usize] {
            return at;
        }
    }
    waits.len() as u32
}

// How many waits are reached once one more has begun: all of them where it passes at once.
fn reached_with_wait(passes: bool, given: u32, reached: u32) -> u32
    requires { given + 1 < 2 ^ 32 }
    ensures { result ≡ cond passes (given + 1) reached }
{
    if passes { given + 1 } else { reached }
}

// One wait further, where there is one.
fn one_further(reached: u32, given: u32) -> u32
    requires { reached ≤ given }
    ensures { result ≡ min (reached + 1) given }
{
    if reached < given { reached + 1 } else { given }
}

// The value of a semaphore that began at `first`.
fn value_of(first: u32, signals: u32, left: u32) -> i64
    ensures { result ≡ pos (first + signals) -ℤ pos left }
{
    i64::from(first) + i64::from(signals) - i64::from(left)
}

impl Semas {
    /// The plan's semaphores before the first event: each has its first value (dispatch_semaphore_create(3)). It takes all
    /// the memory that the semaphores ever need, a byte for each act that waits for one: an `Err` comes only where memory
    /// runs out.
    pub fn new(alloc: Global, plan: &Plan) -> Result<Semas, AllocError>
        ensures { IfOk result (λ s. s ≡ semas_of plan.now) }
    {
        let objects = plan.objects() as usize;
        let bases = bases(alloc, &rooms(alloc, plan)?)?;
        let end = bases[objects];
        Ok(Semas {
            firsts: first_values(alloc, plan)?,
            signals: vec![in alloc; 0; objects]?,
            given: vec![in alloc; 0; objects]?,
            left: vec![in alloc; 0; objects]?,
            reached: vec![in alloc; 0; objects]?,
            bases,
            expired: vec![in alloc; false; end as usize]?,
        })
    }

    /// Copies the semaphores. The copy takes all its memory at once, so an `Err` comes only if memory runs out.
    pub fn copied(&self, alloc: Global) -> Result<Semas, AllocError>
        ensures { IfOk result (λ s. s ≡ self.now) }
    {
        Ok(Semas {
            firsts: Vec::from_slice(alloc, &self.firsts)?,
            signals: Vec::from_slice(alloc, &self.signals)?,
            given: Vec::from_slice(alloc, &self.given)?,
            left: Vec::from_slice(alloc, &self.left)?,
            reached: Vec::from_slice(alloc, &self.reached)?,
            bases: Vec::from_slice(alloc, &self.bases)?,
            expired: Vec::from_slice(alloc, &self.expired)?,
        })
    }

    /// How often the semaphore was waited for, with the waits that have expired (dispatch_semaphore_wait(3)).
    pub fn waits(&self, s: Obj) -> u32
        requires { s.0 < length self.now.waits }
        ensures { result ≡ waits_at self.now s.0 }
    {
        self.given[s.0 as usize]
    }

    /// How often the semaphore was signalled (dispatch_semaphore_signal(3)).
    pub fn signals(&self, s: Obj) -> u32
        requires { s.0 < length self.now.waits }
        ensures { result ≡ signals_at self.now s.0 }
    {
        self.signals[s.0 as usize]
    }

    /// How many waits on the semaphore may begin: the plan has as many acts that wait for it (dispatch_semaphore_wait(3)).
    pub fn room(&self, s: Obj) -> u32
        requires { s.0 < length self.now.waits }
        ensures { result ≡ room_at self.now s.0 }
    {
        self.bases[s.0 as usize + 1] - self.bases[s.0 as usize]
    }

    /// A wait on the semaphore begins; the answer is its rank, 1 for the first (dispatch_semaphore_wait(3)). Fewer waits on it
    /// began before than the plan has acts that wait for it: [`Semas::room`] is the test.
    pub fn wait(&mut self, s: Obj) -> u32
        requires semaphore { s.0 < length self.old.waits }
        requires room { waits_at self.old s.0 < room_at self.old s.0 }
        ensures rank { result ≡ waits_at self.old s.0 + 1 }
        ensures counted { self.new ≡ with_wait self.old s.0 }
    {
        let at = s.0 as usize;
        let place = self.given[at];
        let reached = reached_with_wait(self.has_value(s), place, self.reached[at]);
        self.expired[self.bases[at] as usize + place as usize] = false;
        self.left[at] += 1;
        self.reached[at] = reached;
        self.given[at] = place + 1;
        place + 1
    }

    /// The semaphore is signalled (dispatch_semaphore_signal(3)): the first of its waits that has neither passed nor expired
    /// passes, if there is one. It was signalled fewer than 2^32 - 1 times before: [`Semas::signals`] is the test. It passes
    /// over the expired waits that follow, each of which is passed over once in a run.
    pub fn signal(&mut self, s: Obj)
        requires semaphore { s.0 < length self.old.waits }
        requires room { signals_at self.old s.0 + 1 < 2 ^ 32 }
        ensures { self.new ≡ with_signals self.old s.0 (signals_at self.old s.0 + 1) }
    {
        let at = s.0 as usize;
        let base = self.bases[at] as usize;
        let waits = &self.expired[base..base + self.given[at] as usize];
        let reached = unexpired_from(waits, one_further(self.reached[at], self.given[at]));
        self.signals[at] += 1;
        self.reached[at] = reached;
    }

    /// The wait of this rank on the semaphore expires: it never passes, and counts no longer (dispatch_semaphore_wait(3)). It
    /// has neither passed nor expired before: [`Semas::passed`] and [`Semas::has_expired`] are the tests. No other wait passes by
    /// this. It passes over the expired waits that follow, each of which is passed over once in a run.
    pub fn expire(&mut self, s: Obj, rank: u32)
        requires semaphore { s.0 < length self.old.waits }
        requires first { 1 ≤ rank }
        requires begun { rank ≤ waits_at self.old s.0 }
        requires waiting { is_passed_at self.old s.0 rank ≡ false }
        requires unexpired { is_expired_at self.old s.0 rank ≡ false }
        ensures { self.new ≡ with_expired self.old s.0 rank }
    {
        let at = s.0 as usize;
        let base = self.bases[at] as usize;
        self.expired[base + (rank - 1) as usize] = true;
        let waits = &self.expired[base..base + self.given[at] as usize];
        let reached = unexpired_from(waits, self.reached[at]);
        self.reached[at] = reached;
        self.left[at] -= 1;
    }

    /// Whether the wait of this rank on the semaphore has expired (dispatch_semaphore_wait(3)).
    pub fn has_expired(&self, s: Obj, rank: u32) -> bool
        requires semaphore { s.0 < length self.now.waits }
        requires first { 1 ≤ rank }
        requires begun { rank ≤ waits_at self.now s.0 }
        ensures { result ≡ is_expired_at self.now s.0 rank }
    {
        self.expired[self.bases[s.0 as usize] as usize + (rank - 1) as usize]
    }

    /// Whether the wait of this rank on the semaphore passes: it has not expired, and the first value plus the signals so far
    /// is at least the number of waits, up to and with it, that have not expired (dispatch_semaphore_wait(3); that waits are
    /// served in their order is this project's own rule).
    pub fn passed(&self, s: Obj, rank: u32) -> bool
        requires semaphore { s.0 < length self.now.waits }
        requires first { 1 ≤ rank }
        ensures { result ≡ is_passed_at self.now s.0 rank }
    {
        let at = s.0 as usize;
        if self.given[at] < rank {
            return self.given[at] == self.reached[at];
        }
        rank <= self.reached[at] && !self.expired[self.bases[at] as usize + (rank - 1) as usize]
    }

    /// Whether the semaphore's value is above 0, so that one wait more would pass at once (dispatch_semaphore_wait(3)).
    pub fn has_value(&self, s: Obj) -> bool
        requires { s.0 < length self.now.waits }
        ensures { result ≡ has_value_at self.now s.0 }
    {
        let at = s.0 as usize;
        u64::from(self.left[at]) < u64::from(self.firsts[at]) + u64::from(self.signals[at])
    }

    /// Whether the semaphore's value is below its first value: more waits that have not expired have begun than it was
    /// signalled (dispatch_semaphore_create(3)). Of an object for which none waited it is false.
    pub fn is_below_first(&self, s: Obj) -> bool
        requires { s.0 < length self.now.waits }
        ensures { result ≡ is_below_first_at self.now s.0 }
    {
        self.signals[s.0 as usize] < self.left[s.0 as usize]
    }

    /// The semaphore's value: its first value, and the signals less the waits that have not expired; it is negative where more
    /// such waits have begun than can pass (dispatch_semaphore_create(3)).
    pub fn value(&self, s: Obj) -> i64
        requires { s.0 < length self.now.waits }
        ensures { result ≡ value_at self.now s.0 }
    {
        let at = s.0 as usize;
        value_of(self.firsts[at], self.signals[at], self.left[at])
    }
}

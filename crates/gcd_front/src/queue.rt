// The queue of the jobs from outside, and what its passes do.
ghost use Rattle.std.specs.Prelude.{◌≡◌, ◌+◌, ◌<◌, ℕ, true, Some, [], ◌∷◌, ◌++◌, length, IfOk, MatchOption, MatchResult, List};
ghost use Rattle.crossbeam_queue.specs.Fifo.{Held};
ghost use Rattle.crossbeam_queue.specs.Passes.{view, IsPassOf, ruled_capacity};
ghost use Rattle.gcd_front.specs.Queue.{parcel, opening, told, lending, newcomer, sending, shutting, hearing, Saw, TakenFirst, AllTaken, Learns, OnlyTakes, Takes};

use crate::ledger::{Ledger, Parcel};
use crate::steps::{pop, push};
use crossbeam_queue::protocol::{Join, Lesson, Outcome, Protocol, Split};
use crossbeam_queue::{Pass, RuledArrayQueue};
use std::alloc::{AllocError, Global};
use std::sync::Wait;

// The rule of the queue.
pub struct FirstIn;

impl<S> Protocol<Parcel<S>, Ledger<S>> for FirstIn {
    ghost use Rattle.gcd_front.specs.Queue.{InTurn, opening};

    ghost holds = { InTurn };

    ghost first = { opening };
}

// What a push tells.
pub struct Sending;

impl<S> Outcome<Parcel<S>, Ledger<S>> for Sending {
    ghost use Rattle.gcd_front.specs.Queue.{Sends};

    ghost then = { Sends };
}

impl<S> Lesson<Parcel<S>, Ledger<S>> for Sending {
    ghost fact = { Saw };
}

// What a pop tells.
pub struct Taking;

impl<S> Outcome<Parcel<S>, Ledger<S>> for Taking {
    ghost then = { Takes };
}

impl<S> Lesson<Parcel<S>, Ledger<S>> for Taking {
    ghost fact = { Learns };
}

// A mouth is made.
struct Making;

impl<S> Split<Ledger<S>> for Making {
    ghost left = { lending };

    ghost right = { newcomer };
}

// A mouth is shut.
struct Shutting;

impl<S> Split<Ledger<S>> for Shutting {
    ghost left = { shutting };

    ghost right = { shutting };
}

// What a pass was told of is told on.
struct Telling;

impl<S> Split<Ledger<S>> for Telling {
    ghost left = { λ v. v };

    ghost right = { λ v. told v.shut };
}

impl<S> Join<Ledger<S>> for Telling {
    ghost use Rattle.std.specs.Prelude.{[]};
    ghost use Rattle.gcd_front.specs.Queue.{told, hearing};

    ghost both = { hearing };

    ghost spent = { told [] };
}

// The queue of the jobs from outside.
pub type JobQueue<S> = RuledArrayQueue<Parcel<S>, Ledger<S>, FirstIn>;

// What one user of it knows.
pub type QueuePass<S> = Pass<Parcel<S>, Ledger<S>>;

// A queue for so many jobs, with the pass of its intake.
pub fn open_queue<S>(alloc: Global, room: u32) -> Result<(JobQueue<S>, QueuePass<S>), AllocError>
    requires room { 0 < room }
    ensures room { IfOk result (λ r. ruled_capacity r.0 ≡ room) }
    ensures intake { IfOk result (λ r. IsPassOf r.0 r.1 × (view r.1 ≡ opening)) }
{
    Ok(JobQueue::ruled(alloc, room as usize)?)
}

// The pass of the next mouth.
pub fn make_mouth<S>(queue: &JobQueue<S>, intake: &mut QueuePass<S>) -> QueuePass<S>
    requires intake { IsPassOf queue.now intake.old × ((view intake.old).takes ≡ true) }
    ensures intake { IsPassOf queue.now intake.new × (view intake.new ≡ lending (view intake.old)) }
    ensures mouth { IsPassOf queue.now result × (view result ≡ newcomer (view intake.old)) }
{
    queue.another::<Making>(intake)
}

// Sends a job. It comes back only where the queue was full at a moment of the call.
pub fn push_job<S, R: Wait>(
    rt: &R,
    queue: &JobQueue<S>,
    pass: &mut QueuePass<S>,
    sender: u8,
    number: u32,
    job: S,
) -> Result<(), S>
    requires mouth { IsPassOf queue.now pass.old × (view pass.old ≡ sending sender (view pass.old).sent) }
    requires number { number ≡ length (view pass.old).sent + 1 }
    ensures mouth { IsPassOf queue.now pass.new }
    ensures says { MatchResult result
        (λ _. view pass.new ≡ sending sender ((view pass.old).sent ++ job ∷ []))
        (λ back. (back ≡ job) × (view pass.new ≡ view pass.old)
        × Held (ruled_capacity queue.now) (Saw (view pass.old))) }
{
    let parcel = Parcel {
        sender,
        number,
        job,
    };
    match push::<Parcel<S>, Ledger<S>, FirstIn, Sending, R>(rt, queue, pass, parcel) {
        Ok(()) => Ok(()),
        Err(
            Parcel {
                sender: _,
                number: _,
                job,
            },
        ) => Err(job),
    }
}

// Takes the first job, with its sender and its number. None only where the queue was empty at a moment of the call.
pub fn pop_job<S, R: Wait>(
    rt: &R,
    queue: &JobQueue<S>,
    pass: &mut QueuePass<S>,
) -> Option<(u8, u32, S)>
    requires intake { IsPassOf queue.now pass.old × ((view pass.old).takes ≡ true) }
    ensures intake { IsPassOf queue.now pass.new }
    ensures kept { OnlyTakes (view pass.old) (view pass.new) }
    ensures says { MatchOption result
        ((view pass.new ≡ view pass.old) × Held 0 (Saw (view pass.old))
        × AllTaken (view pass.old).taken (view pass.old).shut)
        (λ r. Takes (view pass.old) (parcel r.0 r.1 r.2) (view pass.new)) }
{
    match pop::<Parcel<S>, Ledger<S>, FirstIn, Taking, R>(rt, queue, pass) {
        Some(
            Parcel {
                sender,
                number,
                job,
            },
        ) => Some((sender, number, job)),
        None => None,
    }
}

// Cuts the pass of a mouth in two, each of which knows the account of its sender and nothing else.
pub fn shut_pass<S>(queue: &JobQueue<S>, pass: &mut QueuePass<S>) -> QueuePass<S>
    requires mouth { IsPassOf queue.now pass.old }
    requires sends { (s : ℕ) × ((view pass.old).sends ≡ Some s) }
    ensures left { IsPassOf queue.now pass.new × (view pass.new ≡ shutting (view pass.old)) }
    ensures note { IsPassOf queue.now result × (view result ≡ shutting (view pass.old)) }
{
    queue.another::<Shutting>(pass)
}

// The intake is told of the accounts that the note knows.
pub fn hear_note<S>(queue: &JobQueue<S>, pass: &mut QueuePass<S>, note: QueuePass<S>)
    requires intake { IsPassOf queue.now pass.old × IsPassOf queue.now note }
    ensures intake { IsPassOf queue.now pass.new × (view pass.new ≡ hearing (view pass.old) (view note)) }
{
    queue.absorb::<Telling>(pass, note);
}

// The intake is told of the accounts that what is left of a mouth knows, and learns how its jobs stand to them.
pub fn settle_pass<S>(queue: &JobQueue<S>, pass: &mut QueuePass<S>, left: &mut QueuePass<S>)
    requires intake { IsPassOf queue.now pass.old × ((view pass.old).takes ≡ true) }
    requires left { IsPassOf queue.now left.old }
    ensures intake { IsPassOf queue.now pass.new × (view pass.new ≡ hearing (view pass.old) (told (view left.old).shut)) }
    ensures left { IsPassOf queue.now left.new × (view left.new ≡ view left.old) }
    ensures taken { TakenFirst (view pass.new).taken (view pass.new).shut }
    ensures learnt { (items : List (Parcel S)) × Learns (view pass.new) items }
{
    let note = queue.another::<Telling>(left);
    hear_note(queue, pass, note);
    queue.learn_as::<Taking>(pass);
}

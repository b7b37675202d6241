// Letting others write over what was seen, and putting an event until no passed word holds it.
ghost use Rattle.std.specs.Prelude.{◌≡◌, ◌<◌, ◌+◌, length, true, false, None};
ghost use Rattle.gcd_history.specs.Choice.{worker_of};
ghost use Rattle.gcd_history.specs.History.{why};
ghost use Rattle.gcd_row.specs.Lying.{GivesBack};
ghost use Rattle.gcd_row.specs.Passes.{slots, view};
ghost use Rattle.gcd_row.specs.Views.{knowing};
ghost use Rattle.gcd_pool.specs.Hands.{IsHandOf, Serving};
ghost use Rattle.gcd_pool.specs.Throughs.{SaysThrough};

use crate::hand::{Hand, Pool};
use crate::idle::Idle;
use gcd_event::Event;
use gcd_row::{Put, Slot};
use std::sync::Wait;

// How many events worker 0 sees before it gathers them.
const GATHERED_AT_ONCE: u32 = 1024;

// Lets others write over what the hand's pass has seen: worker 0 gathers it into its journal, and a helper passes on. False where
// memory was refused to the journal, which is then as it was.
#[inline(always)]
pub fn pass_seen<S: Slot>(pool: &Pool<S>, hand: &mut Hand<S>) -> bool
    requires of { IsHandOf S.shape S.gives pool.now hand.old }
    ensures serving { Serving S.shape S.gives pool.now hand.old hand.new }
    ensures view { view hand.new.pass ≡ knowing (view hand.old.pass) (view hand.old.pass).seen (view hand.new.pass).marks }
    ensures slots { slots hand.new.pass ≡ slots hand.old.pass }
    ensures bench { hand.new.bench ≡ hand.old.bench }
    ensures passed { result ≡ true → (view hand.new.pass).marks.passed ≡ length (view hand.old.pass).seen }
    ensures whole { result ≡ true → (view hand.old.pass).worker ≡ 0 → hand.new.journal.items ≡ (view hand.old.pass).seen }
    ensures refused { result ≡ false → (view hand.old.pass).worker ≡ 0 }
{
    if hand.pass.worker() == 0 {
        match pool.board.gather(&mut hand.pass, &mut hand.journal) {
            Ok(()) => true,
            Err(_) => false,
        }
    } else {
        pool.board.pass_on(&mut hand.pass);
        true
    }
}

// Worker 0 gathers where many events have come since it last did. False where memory was refused to its journal, which is then as it
// was.
#[inline(always)]
pub fn pass_many<S: Slot>(pool: &Pool<S>, hand: &mut Hand<S>) -> bool
    requires of { IsHandOf S.shape S.gives pool.now hand.old }
    ensures serving { Serving S.shape S.gives pool.now hand.old hand.new }
    ensures view { view hand.new.pass ≡ knowing (view hand.old.pass) (view hand.old.pass).seen (view hand.new.pass).marks }
    ensures slots { slots hand.new.pass ≡ slots hand.old.pass }
    ensures bench { hand.new.bench ≡ hand.old.bench }
    ensures few { result ≡ true → (view hand.old.pass).worker ≡ 0 → length (view hand.new.pass).seen < (view hand.new.pass).marks.passed + 1024 }
{
    let gathered = hand.journal.len() as u64;
    if u64::from(hand.pass.machine().len()).saturating_sub(gathered) < u64::from(GATHERED_AT_ONCE) {
        return true;
    }
    pass_seen(pool, hand)
}

// Lets the cell of the next event go, which the worker `by` holds: where that is the hand's own, others may write over what it has
// seen; else it waits for that worker. False where the team was stopped: memory was refused to the journal, its own or worker 0's, or
// no thread was made for a worker. The last is taken to be so where a worker that has not begun to serve holds the cell for ten seconds.
fn let_go<S: Slot, R: Wait>(
    rt: &R,
    pool: &Pool<S>,
    hand: &mut Hand<S>,
    by: u8,
    idle: &mut Idle,
) -> bool
    requires of { IsHandOf S.shape S.gives pool.now hand.old }
    ensures serving { Serving S.shape S.gives pool.now hand.old hand.new }
    ensures view { view hand.new.pass ≡ knowing (view hand.old.pass) (view hand.old.pass).seen (view hand.new.pass).marks }
    ensures slots { slots hand.new.pass ≡ slots hand.old.pass }
    ensures bench { hand.new.bench ≡ hand.old.bench }
{
    if by == hand.pass.worker() {
        return pass_seen(pool, hand);
    }
    if pool.is_stopped() {
        return false;
    }
    if idle.has_waited_long() && !pool.has_begun(by) {
        pool.stop_unserved();
        return false;
    }
    idle.pause(rt);
    true
}

// Puts the event until no passed word holds it. If its own holds it, the hand lets others write over what it has seen. If another's does,
// the hand waits for that worker. What it answers is the answer of the last put: `Held` only if the team was stopped.
pub fn put_through<S: Slot, R: Wait>(rt: &R, pool: &Pool<S>, hand: &mut Hand<S>, e: Event) -> Put
    requires of { IsHandOf S.shape S.gives pool.now hand.old }
    requires worker { worker_of e ≡ (view hand.old.pass).worker }
    requires cell { GivesBack S.shape (view hand.old.pass).terms (view hand.old.pass).seen e (slots hand.old.pass) }
    ensures serving { Serving S.shape S.gives pool.now hand.old hand.new }
    ensures said { SaysThrough S.shape S.gives pool.now.board.now e hand.old.pass hand.new.pass result }
    ensures bench { hand.new.bench ≡ hand.old.bench }
{
    let mut idle = Idle::new();
    for _ in rt.forever() {
        let answer = pool.board.put(&mut hand.pass, e);
        let Put::Held { by, .. } = answer else {
            return answer;
        };
        if !let_go(rt, pool, hand, by, &mut idle) {
            return answer;
        }
    }
    unreachable!()
}

// Puts an event that the pass's machine permits until no passed word holds it. It is not judged again before the first exchange. Each arm
// names its answer, because a `Put` that is passed on whole is copied through memory at every event.
#[inline(always)]
pub fn put_chosen_through<S: Slot, R: Wait>(
    rt: &R,
    pool: &Pool<S>,
    hand: &mut Hand<S>,
    e: Event,
) -> Put
    requires of { IsHandOf S.shape S.gives pool.now hand.old }
    requires worker { worker_of e ≡ (view hand.old.pass).worker }
    requires may { why (view hand.old.pass).terms.plan (view hand.old.pass).seen e ≡ None }
    requires cell { GivesBack S.shape (view hand.old.pass).terms (view hand.old.pass).seen e (slots hand.old.pass) }
    ensures serving { Serving S.shape S.gives pool.now hand.old hand.new }
    ensures said { SaysThrough S.shape S.gives pool.now.board.now e hand.old.pass hand.new.pass result }
    ensures bench { hand.new.bench ≡ hand.old.bench }
{
    match pool.board.put_chosen(&mut hand.pass, e) {
        Put::Placed(n) => Put::Placed(n),
        Put::Barred { at, why } => Put::Barred { at, why },
        Put::Full => Put::Full,
        Put::Held { .. } => put_through(rt, pool, hand, e),
    }
}

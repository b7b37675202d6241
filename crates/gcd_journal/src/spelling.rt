// The event that the fields of a line spell.
ghost use Rattle.std.specs.Prelude.{◌≡◌, ◌≤◌, ◌∷◌, [], IfErr, IfSome, Some, option_and_then};
ghost use Rattle.std.specs.Result.{result_ok};
ghost use Rattle.gcd_journal.specs.Named.{look_of};
ghost use Rattle.gcd_text.specs.Fields.{fields_of};
ghost use Rattle.gcd_journal.specs.Forms.{misfit_from, fault_in};
ghost use Rattle.gcd_journal.specs.Spelling.{Look, number_in, worker_in, index_in, sender_in, time_in, bytes_in, code_in, block_in, other_block_in, source_in, of_both, turn_in, misuse_in, by_one, by_two, by_three, by_four, by_five, event_in};

use crate::cause::{Field, JournalCause};
use crate::names::Names;
use gcd_event::Event;
use gcd_plan::{Blk, MAX_ACTS, MAX_SENDERS, MAX_TIME, MAX_VALUE, MAX_WORKERS, Obj, Run};
use gcd_text::{cut_at, number};

// What fields spell, or what is wrong with them.
type Spelled<T> = Result<T, JournalCause>;

fn misfit(place: u8, expected: Field) -> JournalCause
    ensures { result ≡ JournalCause.Misfit place expected }
{
    JournalCause::Misfit { place, expected }
}

// The number that the field writes, where it is in this range.
fn number_in(field: &[u8], low: u32, high: u32) -> Option<u32>
    ensures value { result ≡ number_in low high field.now }
    ensures few { IfSome result (λ n. n ≤ high) }
{
    match number(field) {
        None => None,
        Some(n) => {
            if n < u64::from(low) {
                return None;
            }
            if u64::from(high) < n {
                return None;
            }
            Some(n as u32)
        }
    }
}

fn worker_in(field: &[u8]) -> Spelled<u8>
    ensures value { result_ok result ≡ worker_in field.now }
    ensures cause { IfErr result (λ why. why ≡ JournalCause.Misfit 2 Field.Worker) }
{
    match number_in(field, 0, MAX_WORKERS - 1) {
        Some(worker) => Ok(worker as u8),
        None => Err(misfit(2, Field::Worker)),
    }
}

fn index_in(field: &[u8]) -> Spelled<u32>
    ensures value { result_ok result ≡ index_in field.now }
    ensures cause { IfErr result (λ why. why ≡ JournalCause.Misfit 4 Field.Index) }
{
    match number_in(field, 0, MAX_ACTS - 1) {
        Some(index) => Ok(index),
        None => Err(misfit(4, Field::Index)),
    }
}

fn sender_in(field: &[u8]) -> Spelled<u8>
    ensures value { result_ok result ≡ sender_in field.now }
    ensures cause { IfErr result (λ why. why ≡ JournalCause.Misfit 3 Field.Sender) }
{
    match number_in(field, 0, MAX_SENDERS - 1) {
        Some(sender) => Ok(sender as u8),
        None => Err(misfit(3, Field::Sender)),
    }
}

fn code_in(field: &[u8]) -> Spelled<u8>
    ensures value { result_ok result ≡ code_in field.now }
    ensures cause { IfErr result (λ why. why ≡ JournalCause.Misfit 5 Field.Code) }
{
    let Some((first, digits)) = field.split_first() else {
        return Err(misfit(5, Field::Code));
    };
    if *first != b'M' {
        return Err(misfit(5, Field::Code));
    }
    match number_in(digits, 1, 8) {
        Some(code) => Ok(code as u8),
        None => Err(misfit(5, Field::Code)),
    }
}

fn block_in(names: &Names, field: &[u8], place: u8) -> Spelled<Blk>
    ensures value { result_ok result ≡ block_in (look_of names.now.runs) field.now }
    ensures cause { IfErr result (λ why. why ≡ JournalCause.Misfit place Field.Block) }
{
    match names.run(field) {
        Some(Run::Block(b)) => Ok(b),
        Some(Run::Source(_)) => Err(misfit(place, Field::Block)),
        None => Err(misfit(place, Field::Block)),
    }
}

// The block that has the name, where it is not `main`.
fn other_block_in(names: &Names, field: &[u8]) -> Spelled<Blk>
    ensures value { result_ok result ≡ other_block_in (look_of names.now.runs) field.now }
    ensures cause { IfErr result (λ why. why ≡ JournalCause.Misfit 2 Field.OtherBlock) }
{
    match names.run(field) {
        Some(Run::Block(b)) => {
            if b.0 == 0 {
                return Err(misfit(2, Field::OtherBlock));
            }
            Ok(b)
        }
        Some(Run::Source(_)) => Err(misfit(2, Field::OtherBlock)),
        None => Err(misfit(2, Field::OtherBlock)),
    }
}

fn source_in(names: &Names, field: &[u8], place: u8) -> Spelled<Obj>
    ensures value { result_ok result ≡ source_in (look_of names.now.runs) field.now }
    ensures cause { IfErr result (λ why. why ≡ JournalCause.Misfit place Field.Source) }
{
    match names.run(field) {
        Some(Run::Block(_)) => Err(misfit(place, Field::Source)),
        Some(Run::Source(s)) => Ok(s),
        None => Err(misfit(place, Field::Source)),
    }
}

// A run's name, in the third field.
fn run_in(names: &Names, field: &[u8]) -> Spelled<Run>
    ensures value { result_ok result ≡ look_of names.now.runs field.now }
    ensures cause { IfErr result (λ why. why ≡ JournalCause.Misfit 3 Field.Run) }
{
    match names.run(field) {
        Some(run) => Ok(run),
        None => Err(misfit(3, Field::Run)),
    }
}

#[tactic(auto, using(crate::proofs::Formed::one_unformed))]
fn by_one(kind: &[u8]) -> Spelled<Event>
    ensures event { result_ok result ≡ by_one kind.now }
    ensures cause { (look : Look) → IfErr result (λ why. fault_in look (kind.now ∷ []) ≡ Some why) }
{
    if kind == b"halt".as_slice() {
        Ok(Event::Halt)
    } else if kind == b"shut".as_slice() {
        Ok(Event::Shut)
    } else {
        Err(JournalCause::NoForm)
    }
}

fn tick_in(a: &[u8]) -> Spelled<Event>
    ensures event { result_ok result ≡ option_and_then (λ t. Some (Event.Tick t)) (time_in a.now) }
    ensures cause { (look : Look) → IfErr result (λ why. misfit_from look 2 (Field.Time ∷ []) (a.now ∷ []) ≡ Some why) }
{
    match number_in(a, 1, MAX_TIME) {
        Some(at) => Ok(Event::Tick { at }),
        None => Err(misfit(2, Field::Time)),
    }
}

fn feed_end_in(names: &Names, a: &[u8]) -> Spelled<Event>
    ensures event { result_ok result ≡ option_and_then (λ s. Some (Event.FeedEnd s)) (source_in (look_of names.now.runs) a.now) }
    ensures cause { IfErr result (λ why. misfit_from (look_of names.now.runs) 2 (Field.Source ∷ []) (a.now ∷ []) ≡ Some why) }
{
    let src = source_in(names, a, 2)?;
    Ok(Event::FeedEnd { src })
}

fn expire_in(names: &Names, a: &[u8]) -> Spelled<Event>
    ensures event { result_ok result ≡ option_and_then (λ b. Some (Event.Expire b)) (block_in (look_of names.now.runs) a.now) }
    ensures cause { IfErr result (λ why. misfit_from (look_of names.now.runs) 2 (Field.Block ∷ []) (a.now ∷ []) ≡ Some why) }
{
    let blk = block_in(names, a, 2)?;
    Ok(Event::Expire { blk })
}

#[tactic(auto, using(crate::proofs::Formed::feed_end_unfit, crate::proofs::Formed::expire_unfit, crate::proofs::Formed::two_unformed))]
fn by_two(names: &Names, kind: &[u8], a: &[u8]) -> Spelled<Event>
    ensures event { result_ok result ≡ by_two (look_of names.now.runs) kind.now a.now }
    ensures cause { IfErr result (λ why. fault_in (look_of names.now.runs) (kind.now ∷ a.now ∷ []) ≡ Some why) }
{
    if kind == b"tick".as_slice() {
        tick_in(a)
    } else if kind == b"feed_end".as_slice() {
        feed_end_in(names, a)
    } else if kind == b"expire".as_slice() {
        expire_in(names, a)
    } else {
        Err(JournalCause::NoForm)
    }
}

fn bytes_in(field: &[u8]) -> Spelled<u32>
    ensures value { result_ok result ≡ bytes_in field.now }
    ensures cause { IfErr result (λ why. why ≡ JournalCause.Misfit 3 Field.Bytes) }
{
    match number_in(field, 1, MAX_VALUE) {
        Some(bytes) => Ok(bytes),
        None => Err(misfit(3, Field::Bytes)),
    }
}

fn ready_in(names: &Names, a: &[u8], b: &[u8]) -> Spelled<Event>
    ensures event { result_ok result ≡ of_both (λ s n. Event.Ready s n) (source_in (look_of names.now.runs) a.now) (bytes_in b.now) }
    ensures cause { IfErr result (λ why. misfit_from (look_of names.now.runs) 2 (Field.Source ∷ Field.Bytes ∷ []) (a.now ∷ b.now ∷ []) ≡ Some why) }
{
    let src = source_in(names, a, 2)?;
    let bytes = bytes_in(b)?;
    Ok(Event::Ready { src, bytes })
}

fn accept_in(names: &Names, a: &[u8], b: &[u8]) -> Spelled<Event>
    ensures event { result_ok result ≡ of_both (λ c s. Event.Accept c s) (other_block_in (look_of names.now.runs) a.now) (sender_in b.now) }
    ensures cause { IfErr result (λ why. misfit_from (look_of names.now.runs) 2 (Field.OtherBlock ∷ Field.Sender ∷ []) (a.now ∷ b.now ∷ []) ≡ Some why) }
{
    let blk = other_block_in(names, a)?;
    let sender = sender_in(b)?;
    Ok(Event::Accept { blk, sender })
}

fn start_in(names: &Names, a: &[u8], b: &[u8]) -> Spelled<Event>
    ensures event { result_ok result ≡ of_both (λ w x. Event.Start w x) (worker_in a.now) (block_in (look_of names.now.runs) b.now) }
    ensures cause { IfErr result (λ why. misfit_from (look_of names.now.runs) 2 (Field.Worker ∷ Field.Block ∷ []) (a.now ∷ b.now ∷ []) ≡ Some why) }
{
    let worker = worker_in(a)?;
    let blk = block_in(names, b, 3)?;
    Ok(Event::Start { worker, blk })
}

fn end_in(names: &Names, a: &[u8], b: &[u8]) -> Spelled<Event>
    ensures event { result_ok result ≡ of_both (λ w x. Event.End w x) (worker_in a.now) (block_in (look_of names.now.runs) b.now) }
    ensures cause { IfErr result (λ why. misfit_from (look_of names.now.runs) 2 (Field.Worker ∷ Field.Block ∷ []) (a.now ∷ b.now ∷ []) ≡ Some why) }
{
    let worker = worker_in(a)?;
    let blk = block_in(names, b, 3)?;
    Ok(Event::End { worker, blk })
}

fn wake_in(names: &Names, a: &[u8], b: &[u8]) -> Spelled<Event>
    ensures event { result_ok result ≡ of_both (λ w x. Event.Wake w x) (worker_in a.now) (block_in (look_of names.now.runs) b.now) }
    ensures cause { IfErr result (λ why. misfit_from (look_of names.now.runs) 2 (Field.Worker ∷ Field.Block ∷ []) (a.now ∷ b.now ∷ []) ≡ Some why) }
{
    let worker = worker_in(a)?;
    let blk = block_in(names, b, 3)?;
    Ok(Event::Wake { worker, blk })
}

fn deliver_in(names: &Names, a: &[u8], b: &[u8]) -> Spelled<Event>
    ensures event { result_ok result ≡ of_both (λ w x. Event.Deliver w x) (worker_in a.now) (source_in (look_of names.now.runs) b.now) }
    ensures cause { IfErr result (λ why. misfit_from (look_of names.now.runs) 2 (Field.Worker ∷ Field.Source ∷ []) (a.now ∷ b.now ∷ []) ≡ Some why) }
{
    let worker = worker_in(a)?;
    let src = source_in(names, b, 3)?;
    Ok(Event::Deliver { worker, src })
}

fn deliver_end_in(names: &Names, a: &[u8], b: &[u8]) -> Spelled<Event>
    ensures event { result_ok result ≡ of_both (λ w x. Event.DeliverEnd w x) (worker_in a.now) (source_in (look_of names.now.runs) b.now) }
    ensures cause { IfErr result (λ why. misfit_from (look_of names.now.runs) 2 (Field.Worker ∷ Field.Source ∷ []) (a.now ∷ b.now ∷ []) ≡ Some why) }
{
    let worker = worker_in(a)?;
    let src = source_in(names, b, 3)?;
    Ok(Event::DeliverEnd { worker, src })
}

#[tactic(auto, using(crate::proofs::Formed::ready_unfit, crate::proofs::Formed::accept_unfit, crate::proofs::Formed::start_unfit, crate::proofs::Formed::end_unfit, crate::proofs::Formed::wake_unfit, crate::proofs::Formed::deliver_unfit))]
fn by_three(names: &Names, kind: &[u8], a: &[u8], b: &[u8]) -> Spelled<Event>
    ensures event { result_ok result ≡ by_three (look_of names.now.runs) kind.now a.now b.now }
    ensures cause { IfErr result (λ why. fault_in (look_of names.now.runs) (kind.now ∷ a.now ∷ b.now ∷ []) ≡ Some why) }
{
    if kind == b"ready".as_slice() {
        ready_in(names, a, b)
    } else if kind == b"accept".as_slice() {
        accept_in(names, a, b)
    } else if kind == b"start".as_slice() {
        start_in(names, a, b)
    } else if kind == b"end".as_slice() {
        end_in(names, a, b)
    } else if kind == b"wake".as_slice() {
        wake_in(names, a, b)
    } else if kind == b"deliver".as_slice() {
        deliver_in(names, a, b)
    } else if kind == b"deliver_end".as_slice() {
        deliver_end_in(names, a, b)
    } else {
        Err(JournalCause::NoForm)
    }
}

fn act_in(names: &Names, a: &[u8], b: &[u8], c: &[u8]) -> Spelled<Event>
    ensures event { result_ok result ≡ of_both (λ turn i. Event.Act turn.0 turn.1 i) (turn_in (look_of names.now.runs) a.now b.now) (index_in c.now) }
    ensures cause { IfErr result (λ why. misfit_from (look_of names.now.runs) 2 (Field.Worker ∷ Field.Run ∷ Field.Index ∷ []) (a.now ∷ b.now ∷ c.now ∷ []) ≡ Some why) }
{
    let worker = worker_in(a)?;
    let run = run_in(names, b)?;
    let index = index_in(c)?;
    Ok(Event::Act { worker, run, index })
}

#[tactic(auto, using(crate::proofs::Formed::act_unfit, crate::proofs::Formed::four_unformed))]
fn by_four(names: &Names, kind: &[u8], a: &[u8], b: &[u8], c: &[u8]) -> Spelled<Event>
    ensures event { result_ok result ≡ by_four (look_of names.now.runs) kind.now a.now b.now c.now }
    ensures cause { IfErr result (λ why. fault_in (look_of names.now.runs) (kind.now ∷ a.now ∷ b.now ∷ c.now ∷ []) ≡ Some why) }
{
    if kind == b"act".as_slice() {
        act_in(names, a, b, c)
    } else {
        Err(JournalCause::NoForm)
    }
}

fn misuse_in(names: &Names, a: &[u8], b: &[u8], c: &[u8], d: &[u8]) -> Spelled<Event>
    ensures event { result_ok result ≡ misuse_in (look_of names.now.runs) a.now b.now c.now d.now }
    ensures cause { IfErr result (λ why. misfit_from (look_of names.now.runs) 2 (Field.Worker ∷ Field.Run ∷ Field.Index ∷ Field.Code ∷ []) (a.now ∷ b.now ∷ c.now ∷ d.now ∷ []) ≡ Some why) }
{
    let worker = worker_in(a)?;
    let run = run_in(names, b)?;
    let index = index_in(c)?;
    let code = code_in(d)?;
    Ok(Event::Misuse {
        worker,
        run,
        index,
        code,
    })
}

#[tactic(auto, using(crate::proofs::Formed::misuse_unfit, crate::proofs::Formed::five_unformed))]
fn by_five(names: &Names, kind: &[u8], a: &[u8], b: &[u8], c: &[u8], d: &[u8]) -> Spelled<Event>
    ensures event { result_ok result ≡ by_five (look_of names.now.runs) kind.now a.now b.now c.now d.now }
    ensures cause { IfErr result (λ why. fault_in (look_of names.now.runs) (kind.now ∷ a.now ∷ b.now ∷ c.now ∷ d.now ∷ []) ≡ Some why) }
{
    if kind == b"misuse".as_slice() {
        misuse_in(names, a, b, c, d)
    } else {
        Err(JournalCause::NoForm)
    }
}

/// The event that the line spells, without its end; an `Err` exactly if it spells none, with what is wrong with it.
pub fn event_in(names: &Names, line: &[u8]) -> Spelled<Event>
    ensures event { result_ok result ≡ event_in (look_of names.now.runs) (fields_of line.now) }
    ensures cause { IfErr result (λ why. fault_in (look_of names.now.runs) (fields_of line.now) ≡ Some why) }
{
    match cut_at(line, b' ') {
        None => by_one(line),
        Some((kind, rest)) => from_two(names, kind, rest),
    }
}

// The same, where these fields are read, and the rest has at least one.
fn from_two(names: &Names, kind: &[u8], rest: &[u8]) -> Spelled<Event>
    ensures event { result_ok result ≡ event_in (look_of names.now.runs) (kind.now ∷ fields_of rest.now) }
    ensures cause { IfErr result (λ why. fault_in (look_of names.now.runs) (kind.now ∷ fields_of rest.now) ≡ Some why) }
{
    match cut_at(rest, b' ') {
        None => by_two(names, kind, rest),
        Some((a, more)) => from_three(names, kind, a, more),
    }
}

fn from_three(names: &Names, kind: &[u8], a: &[u8], rest: &[u8]) -> Spelled<Event>
    ensures event { result_ok result ≡ event_in (look_of names.now.runs) (kind.now ∷ a.now ∷ fields_of rest.now) }
    ensures cause { IfErr result (λ why. fault_in (look_of names.now.runs) (kind.now ∷ a.now ∷ fields_of rest.now) ≡ Some why) }
{
    match cut_at(rest, b' ') {
        None => by_three(names, kind, a, rest),
        Some((b, more)) => from_four(names, kind, a, b, more),
    }
}

fn from_four(names: &Names, kind: &[u8], a: &[u8], b: &[u8], rest: &[u8]) -> Spelled<Event>
    ensures event { result_ok result ≡ event_in (look_of names.now.runs) (kind.now ∷ a.now ∷ b.now ∷ fields_of rest.now) }
    ensures cause { IfErr result (λ why. fault_in (look_of names.now.runs) (kind.now ∷ a.now ∷ b.now ∷ fields_of rest.now) ≡ Some why) }
{
    match cut_at(rest, b' ') {
        None => by_four(names, kind, a, b, rest),
        Some((c, more)) => from_five(names, kind, a, b, c, more),
    }
}

fn from_five(
    names: &Names,
    kind: &[u8],
    a: &[u8],
    b: &[u8],
    c: &[u8],
    rest: &[u8],
) -> Spelled<Event>
    ensures event { result_ok result ≡ event_in (look_of names.now.runs) (kind.now ∷ a.now ∷ b.now ∷ c.now ∷ fields_of rest.now) }
    ensures cause { IfErr result (λ why. fault_in (look_of names.now.runs) (kind.now ∷ a.now ∷ b.now ∷ c.now ∷ fields_of rest.now) ≡ Some why) }
{
    match cut_at(rest, b' ') {
        None => by_five(names, kind, a, b, c, rest),
        Some(_) => Err(JournalCause::NoForm),
    }
}

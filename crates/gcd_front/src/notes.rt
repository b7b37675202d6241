// How a mouth that is shut hands its account to the intake: a word and a slot for each sender.
ghost use Rattle.std.specs.Prelude.{◌≡◌, ◌+◌, ◌<◌, true, None, Some, [], ◌∷◌, IfSome, IfNone, IfOk};
ghost use Rattle.gcd_front.specs.Notes.{listening, open_mouth, handed_over, relieved, hearing_next, finding_open, IsNote, MakingTells, LayingTells, LookingTells};

use crate::queue::QueuePass;
use atomic_table::{Play, Seat, Split, Table, TableRule};
use std::alloc::{AllocError, Global};
use std::collections::LinkedList;

// What a seat of the notes knows. No value of it is made.
pub struct Sight<S> {
    // A pass of the queue whose accounts the notes have.
    pub queue: QueuePass<S>,
    // It is the intake's, which alone makes senders and takes notes.
    pub listens: bool,
    // At the intake: the next sender to be made; of how many it took the note, the first ones; and the senders whose
    // mouths it found open, in the order of its looks.
    pub next: u8,
    pub heard: u8,
    pub opens: LinkedList<u8>,
    // The sender whose mouth has the seat, while it is open.
    pub sender: Option<u8>,
}

// The word of a sender whose mouth is open, whose note lies in its slot, and whose note was taken.
const OPEN: u64 = 1;

const SHUT: u64 = 2;

const HEARD: u64 = 3;

// The rule of the notes. Its key names the table of the queue.
pub struct Noted;

impl<S> TableRule<Option<QueuePass<S>>, Sight<S>, QueuePass<S>> for Noted {
    ghost use Rattle.std.specs.Prelude.{[], None};
    ghost use Rattle.gcd_front.specs.Notes.{listening, AtNotes};

    ghost holds = { λ queue. AtNotes queue.table_id };

    ghost first = { λ queue. listening queue 0 0 [] None };
}

struct Making;

impl<S> Play<Option<QueuePass<S>>, Sight<S>> for Making {
    ghost then = { MakingTells };
}

struct Laying;

impl<S> Play<Option<QueuePass<S>>, Sight<S>> for Laying {
    ghost then = { LayingTells };
}

struct Looking;

impl<S> Play<Option<QueuePass<S>>, Sight<S>> for Looking {
    ghost then = { LookingTells };
}

// The seat that made a sender goes with its mouth, and the intake gets a new one.
struct Parting;

impl<S> Split<Sight<S>> for Parting {
    ghost left = { handed_over };

    ghost right = { relieved };
}

// The notes of a front.
pub type Notes<S> = Table<Option<QueuePass<S>>, Sight<S>, QueuePass<S>, Noted, Global>;

pub type NoteSeat<S> = Seat<Option<QueuePass<S>>, Sight<S>>;

// The notes of so many senders, before one is made, with the intake's seat.
pub fn open_notes<S>(
    alloc: Global,
    senders: u8,
    queue: &QueuePass<S>,
) -> Result<(Notes<S>, NoteSeat<S>), AllocError>
    ensures size { IfOk result (λ r. (r.0.shared.table_id.words ≡ senders + 1) × (r.0.shared.table_id.slots ≡ senders)) }
    ensures seat { IfOk result (λ r. (r.1.table_id ≡ r.0.shared.table_id) × (r.1.me ≡ (listening queue.now 0 0 [] None, []))) }
{
    let words = Vec::from_elem(alloc, 0, senders as usize + 1)?;
    Ok(Table::vacant(alloc, &words, senders as usize, queue)?)
}

// Makes the next sender: the intake's seat, and that of the sender's mouth, with the slot.
pub fn make_sender<S>(
    notes: &Notes<S>,
    mut seat: NoteSeat<S>,
    sender: u8,
) -> (NoteSeat<S>, NoteSeat<S>)
    requires table { (seat.table_id ≡ notes.now.shared.table_id) × (notes.now.shared.table_id.words ≡ notes.now.shared.table_id.slots + 1) }
    requires intake { seat.me ≡ (listening seat.me.0.queue sender 0 [] None, []) }
    requires room { sender < notes.now.shared.table_id.slots }
    ensures table { (result.0.table_id ≡ seat.table_id) × (result.1.table_id ≡ seat.table_id) }
    ensures intake { result.0.me ≡ (listening seat.me.0.queue (sender + 1) 0 [] None, []) }
    ensures mouth { result.1.me ≡ (open_mouth seat.me.0.queue sender, (sender, None) ∷ []) }
{
    notes
        .shared
        .store::<Making>(&mut seat, sender as usize + 1, OPEN);
    let intake = notes.shared.split_seat::<Parting>(&mut seat);
    (intake, seat)
}

// Lays the note of a mouth that is shut into its slot.
pub fn lay_note<S>(notes: &Notes<S>, mut seat: NoteSeat<S>, sender: u8, note: QueuePass<S>)
    requires table { (seat.table_id ≡ notes.now.shared.table_id) × (notes.now.shared.table_id.words ≡ notes.now.shared.table_id.slots + 1) }
    requires mouth { seat.me ≡ (open_mouth seat.me.0.queue sender, (sender, None) ∷ []) }
    requires room { sender < notes.now.shared.table_id.slots }
    requires note { IsNote seat.me.0.queue.table_id sender note }
{
    notes
        .shared
        .exchange(&mut seat, sender as usize, Some(note));
    notes
        .shared
        .store::<Laying>(&mut seat, sender as usize + 1, SHUT);
}

// The note of the first sender of which the intake took none. None exactly where its mouth was open at the look, which the
// intake has then noted.
pub fn take_note<S>(notes: &Notes<S>, seat: &mut NoteSeat<S>, sender: u8) -> Option<QueuePass<S>>
    requires table { (seat.old.table_id ≡ notes.now.shared.table_id) × (notes.now.shared.table_id.words ≡ notes.now.shared.table_id.slots + 1) }
    requires intake { (seat.old.me.0.listens ≡ true) × (seat.old.me.0.heard ≡ sender) × (seat.old.me.0.next ≡ notes.now.shared.table_id.slots) }
    requires room { sender < notes.now.shared.table_id.slots }
    ensures table { seat.new.table_id ≡ seat.old.table_id }
    ensures note { IfSome result (λ note. IsNote seat.old.me.0.queue.table_id sender note) }
    ensures heard { IfSome result (λ _. seat.new.me.0 ≡ hearing_next seat.old.me.0) }
    ensures found_open { IfNone result (seat.new.me.0 ≡ finding_open sender seat.old.me.0) }
{
    let found = notes
        .shared
        .compare_exchange::<Looking>(seat, sender as usize + 1, SHUT, HEARD);
    if found != SHUT {
        return None;
    }
    notes.shared.exchange(seat, sender as usize, None)
}

// Where Drains sleep: a word and a slot for each node.
ghost use Rattle.std.specs.Prelude.{◌≡◌, ◌+◌, ◌<◌, [], MatchBool, IfSome, IfNone};
ghost use Rattle.gcd_steal.specs.Places.{newcomer, IsSeatOf, HoldsSlot, Takes, Misses, Gives, WakingTells, LayingTells};

use crate::drain::Drain;
use crate::tokens::Token;
use atomic_table::{Badge, Play, Seat, Split, Table, TableRule};
use gcd_plan::Obj;
use std::alloc::Global;
use std::collections::LinkedList;
use std::mem;

// The first words of the table, which no step writes: splitting a seat loads word 0, and so meets no writer's cache line.
pub const SPARE_WORDS: usize = 8;

// The node's word where its Drain sleeps, and where it is out.
pub const ASLEEP: u64 = 1;

const AWAKE: u64 = 0;

// A write to the word of a node, and whether its Drain sleeps from then on. No value of it is made.
pub struct Change {
    pub node: u64,
    pub asleep: bool,
}

// What a seat knows of the places: their history up to its own newest write, the newest first, and how many writes it made
// itself. No value of it is made.
pub struct Sight {
    pub tokens: Token,
    pub seen: LinkedList<Change>,
    pub did: u64,
}

// The rule of the places. Its key names the table of the tokens.
pub struct Resting;

impl TableRule<Token, Sight, Token> for Resting {
    ghost use Rattle.std.specs.Prelude.{[]};
    ghost use Rattle.gcd_steal.specs.Places.{sight, Rests};

    ghost holds = { Rests };

    ghost first = { λ tokens. sight tokens [] 0 };
}

// What emptying a place tells.
pub struct Waking;

impl Play<Token, Sight> for Waking {
    ghost then = { WakingTells };
}

// What laying a Drain down tells.
pub struct Laying;

impl Play<Token, Sight> for Laying {
    ghost then = { LayingTells };
}

// How a new seat is split off: it has seen what the old one has, and made no write.
pub struct Twin;

impl Split<Sight> for Twin {
    ghost left = { λ v. v };

    ghost right = { newcomer };
}

// The table of the places: for node k the word k + 8 and the slot k, in which its token lies while its Drain sleeps.
pub type Places = Table<Token, Sight, Token, Resting, Global>;

pub type PlaceSeat = Seat<Token, Sight>;

fn word_of_node(node: Obj) -> usize
    ensures { result ≡ node.0 + 8 }
{
    node.0 as usize + SPARE_WORDS
}

// Empties the node's place: takes its slot, with its token, where its Drain sleeps, and says whether it did. One write.
fn take_slot(places: &Places, seat: &mut PlaceSeat, node: Obj) -> bool
    requires table { IsSeatOf places.now.shared.table_id seat.old }
    requires idle { seat.old.me.1 ≡ [] }
    requires node { node.0 < places.now.shared.table_id.slots }
    ensures seat { (seat.new.table_id ≡ seat.old.table_id) × (seat.new.id ≡ seat.old.id) }
    ensures told { MatchBool result
        (Takes node.0 seat.old.me.0 seat.new.me.0 × HoldsSlot seat.old.me.0.tokens node.0 seat.new.me.1)
        (Misses node.0 seat.old.me.0 seat.new.me.0 × (seat.new.me.1 ≡ [])) }
{
    let found = places
        .shared
        .swap::<Waking>(seat, word_of_node(node), AWAKE);
    found == ASLEEP
}

// Gives the node's slot back, with the token in it. One write.
fn give_slot(places: &Places, seat: &mut PlaceSeat, node: Obj)
    requires table { IsSeatOf places.now.shared.table_id seat.old }
    requires slot { HoldsSlot seat.old.me.0.tokens node.0 seat.old.me.1 }
    requires node { node.0 < places.now.shared.table_id.slots }
    ensures seat { (seat.new.table_id ≡ seat.old.table_id) × (seat.new.me.1 ≡ []) }
    ensures told { Gives node.0 seat.old.me.0 seat.new.me.0 }
{
    places
        .shared
        .store::<Laying>(seat, word_of_node(node), ASLEEP);
}

// Takes the node's Drain from its place. The seat that took it goes with the Drain, and the bench gets a new one.
pub fn take_from_place(places: &Places, seat: &mut PlaceSeat, node: Obj) -> Option<Drain>
    requires table { IsSeatOf places.now.shared.table_id seat.old }
    requires idle { seat.old.me.1 ≡ [] }
    requires node { node.0 < places.now.shared.table_id.slots }
    ensures seat { (seat.new.table_id ≡ seat.old.table_id) × (seat.new.me.1 ≡ []) }
    ensures node { IfSome result (λ d. d.node ≡ node) }
    ensures tables { IfSome result (λ d. (d.token.table_id ≡ seat.old.me.0.tokens.table_id)
        × (d.place.table_id ≡ places.now.shared.table_id)) }
    ensures asleep { IfSome result (λ d. Takes node.0 seat.old.me.0 d.place.me.0
        × (seat.new.me.0 ≡ newcomer d.place.me.0)) }
    ensures awake { IfNone result (Misses node.0 seat.old.me.0 seat.new.me.0
        × (seat.new.id ≡ seat.old.id)) }
{
    if !take_slot(places, seat, node) {
        return None;
    }
    let rest = places.shared.split_seat::<Twin>(seat);
    let mut place = mem::replace(seat, rest);
    let token = places
        .shared
        .exchange(&mut place, node.0 as usize, Badge::blank());
    Some(Drain { token, place, node })
}

// Lays the Drain into its place, and returns the seat that did so.
pub fn lay_in_place(places: &Places, drain: Drain) -> PlaceSeat
    requires table { IsSeatOf places.now.shared.table_id drain.place }
    requires tokens { drain.token.table_id ≡ drain.place.me.0.tokens.table_id }
    requires node { drain.node.0 < places.now.shared.table_id.slots }
    ensures seat { (result.table_id ≡ drain.place.table_id) × (result.me.1 ≡ []) }
    ensures lies { Gives drain.node.0 drain.place.me.0 result.me.0 }
{
    let Drain {
        token,
        mut place,
        node,
    } = drain;
    places.shared.exchange(&mut place, node.0 as usize, token);
    give_slot(places, &mut place, node);
    place
}

// The start of a rack: its tokens and its places.
ghost use Rattle.std.specs.Prelude.{◌≡◌, ◌+◌, [], length, IfOk};
ghost use Rattle.gcd_steal.specs.Places.{sight};

use crate::deque::RackId;
use crate::places::{ASLEEP, PlaceSeat, Places, SPARE_WORDS, Twin};
use crate::tokens::{Issued, Tokens, issue_tokens};
use atomic_table::Table;
use gcd_plan::Plan;
use std::alloc::{AllocError, Global};

// The tokens of a plan's objects, their places with each Drain asleep, which rack it is, and a seat of the places.
#[derive(Drop)]
pub struct Laid {
    pub tokens: Tokens,
    pub places: Places,
    pub rack: RackId,
    pub seat: PlaceSeat,
}

// Issues a token for each object of the plan and lays it into its place.
pub fn lay_all(alloc: Global, plan: &Plan) -> Result<Laid, AllocError>
    ensures plan { IfOk result (λ l. l.tokens.shared.key ≡ plan.now) }
    ensures word { IfOk result (λ l. l.tokens.shared.table_id.words ≡ 1) }
    ensures size { IfOk result (λ l. (l.places.shared.table_id.slots ≡ length plan.now.objects)
        × (l.places.shared.table_id.words ≡ length plan.now.objects + 8)) }
    ensures rack { IfOk result (λ l. (l.rack.tokens.table_id ≡ l.tokens.shared.table_id)
        × (l.rack.places.table_id ≡ l.places.shared.table_id)) }
    ensures seat { IfOk result (λ l. (l.seat.table_id ≡ l.places.shared.table_id)
        × (l.seat.me ≡ (sight l.rack.tokens [] 0, []))) }
{
    let Issued {
        table,
        each,
        issuer,
    } = issue_tokens(alloc, plan)?;
    let words = Vec::from_elem(alloc, ASLEEP, plan.objects() as usize + SPARE_WORDS)?;
    let Ok((places, mut seat)) = Table::new(alloc, &words, each, &issuer) else {
        return Err(AllocError);
    };
    let other = places.shared.split_seat::<Twin>(&mut seat).into_badge();
    let rack = RackId {
        tokens: issuer,
        places: other,
    };
    Ok(Laid {
        tokens: table,
        places,
        rack,
        seat,
    })
}

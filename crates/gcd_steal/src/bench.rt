// What a rack and a bench are made of.
ghost use Rattle.std.specs.Prelude.{◌≡◌, ◌+◌, ◌<◌, ◌≤◌, [], length};
ghost use Rattle.gcd_plan.specs.Limits.{max_workers};

use crate::deque::{Deque, Pass, Thief};
use crate::places::{PlaceSeat, Places};
use crate::tokens::Tokens;

/// What the workers of a run share: a sleeping place for each node of the plan, and a way to steal from each bench. Threads share it by `&`.
pub struct Rack {
    pub(crate) tokens: Tokens,
    pub(crate) places: Places,
    // By the number of the bench.
    pub(crate) thieves: Vec<Thief>,
    ghost few: { (0 < length thieves.items) × (length thieves.items ≤ max_workers) },
    ghost placed: { places.shared.table_id.slots ≡ length tokens.shared.key.objects },
    ghost word: { tokens.shared.table_id.words ≡ 1 },
    ghost sized: { places.shared.table_id.words ≡ places.shared.table_id.slots + 8 },
}

// One call drops all that a rack has: so a crate that drops racks proves nothing of its parts.
impl Drop for Rack {
    fn drop(self) {
        let Rack {
            tokens: _,
            places: _,
            thieves: _,
        } = self;
    }
}

/// What one worker has: its deque, and what it needs to wake, to sleep and to steal. It may go to
/// a thread of its own.
pub struct Bench {
    pub(crate) deque: Deque,
    pub(crate) number: u8,
    // Of the places; it holds no slot.
    pub(crate) seat: PlaceSeat,
    // One of each bench's deque, by number. Its own is not used.
    pub(crate) passes: Vec<Pass>,
    ghost idle: { seat.me.1 ≡ [] },
}

// The same for a bench.
impl Drop for Bench {
    fn drop(self) {
        let Bench {
            deque: _,
            number: _,
            seat: _,
            passes: _,
        } = self;
    }
}

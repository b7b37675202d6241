// A board: the row of words that decides, and the slots.
ghost use Rattle.std.specs.Prelude.{◌≡◌, ◌≤◌, ◌<◌, length};
ghost use Rattle.gcd_row.specs.Ring.{ring_words};

use crate::cell::{Cell, Slot};
use crate::plays::Lawful;
use crate::view::{Copies, Limits, View};
use atomic_table::Table;
use std::alloc::Global;

/// The table of a board: words and slots.
pub type RowTable<S> = Table<S, View<S>, Copies<S>, Lawful, Global>;

/// A ring of events that up to 64 workers decide by single exchanges, and a slot for each block and each object of its plan.
/// It is shared by `&`.
#[derive(Drop)]
pub struct RowBoard<S: Slot> {
    pub(crate) table: RowTable<S>,
    pub(crate) limits: Limits,
    // How many events the row began with.
    pub(crate) opened: u32,
    ghost sized: { table.shared.table_id.words ≡ ring_words },
    ghost same: { limits ≡ table.shared.key.limits },
    ghost began: { opened ≡ length table.shared.key.history.value.items },
    ghost bounds: { (0 < table.shared.key.limits.workers) × (table.shared.key.limits.workers ≤ 64) × (0 < table.shared.key.limits.most) × (table.shared.key.limits.most < 4294967296) },
}

/// A board of jobs and handlers.
pub type Board<J, H> = RowBoard<Cell<J, H>>;

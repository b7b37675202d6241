// The steps on a word over every rule that a table may have. What a step tells is what its own kind says of the word, of the number
// found there and of the seat before and after, whatever the rule and whatever the kind: so no body can make the answer up, and it
// can only come from a step on that word in the call.
ghost use Rattle.std.specs.Prelude.{◌≡◌, ◌<◌, ◌==◌};
ghost use mathlib.Core.Option.{none};
ghost use prog.Atomic.{either};
ghost use Rattle.atomic_table.specs.Table.{Allows, step};

use atomic_table::{Play, Seat, Shared, TableRule};

// Loads the word.
#[inline(always)]
pub fn load_word<S, V, K, P: TableRule<S, V, K>, M: Play<S, V>>(
    shared: &Shared<S, V, K, P>,
    seat: &mut Seat<S, V>,
    word: usize,
) -> u64
    requires table { seat.old.table_id ≡ shared.now.table_id }
    requires word { word < shared.now.table_id.words }
    requires keeps { Allows (P.holds shared.now.key) shared.now.table_id.slots seat.old.id seat.old.me word (λ n. n) (M.then (step shared.now.table_id.slots word 0 0 none) seat.old.me) }
    ensures table { seat.new.table_id ≡ seat.old.table_id }
    ensures found { M.then (step shared.now.table_id.slots word 0 0 none) seat.old.me result seat.new.me }
{
    shared.load::<M>(seat, word)
}

// Makes the word `new` where it is `old`. What it was before.
#[inline(always)]
pub fn exchange_word<S, V, K, P: TableRule<S, V, K>, M: Play<S, V>>(
    shared: &Shared<S, V, K, P>,
    seat: &mut Seat<S, V>,
    word: usize,
    old: u64,
    new: u64,
) -> u64
    requires table { seat.old.table_id ≡ shared.now.table_id }
    requires word { word < shared.now.table_id.words }
    requires keeps { Allows (P.holds shared.now.key) shared.now.table_id.slots seat.old.id seat.old.me word (λ n. either (n == old) new n) (M.then (step shared.now.table_id.slots word old new none) seat.old.me) }
    ensures table { seat.new.table_id ≡ seat.old.table_id }
    ensures found { M.then (step shared.now.table_id.slots word old new none) seat.old.me result seat.new.me }
{
    shared.compare_exchange::<M>(seat, word, old, new)
}

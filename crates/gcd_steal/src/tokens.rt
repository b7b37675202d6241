// A token for each object of the plan, which gives the right to drain it.
ghost use Rattle.std.specs.Prelude.{◌≡◌, ◌≢◌, ◌<◌, length, IfOk};
ghost use Rattle.gcd_steal.specs.Tokens.{IsTokenOf, AreTokens};

use atomic_table::{Badge, Join, Play, Split, Table, TableRule};
use gcd_plan::{Obj, Plan};
use std::alloc::{AllocError, Global};
use std::collections::LinkedList;

// The nodes that a token gives the right to drain, by number. No value of it is made.
pub struct Rights {
    pub nodes: LinkedList<u64>,
}

// It has no bytes, and can't be copied.
pub type Token = Badge<Rights>;

// The rule of the tokens: no node is in two of them.
pub struct NoneTwice;

impl TableRule<(), Rights, Plan> for NoneTwice {
    ghost use Rattle.std.specs.Prelude.{length};
    ghost use Rattle.std.specs.List.{range_with_len};
    ghost use Rattle.gcd_steal.specs.Tokens.{rights, AreApart};

    ghost holds = { λ _. AreApart };

    ghost first = { λ plan. rights (range_with_len 0 (length plan.objects)) };
}

// How a token of the first node is split off one of several.
pub struct FirstNode;

impl Split<Rights> for FirstNode {
    ghost use Rattle.std.specs.Prelude.{take, drop};
    ghost use Rattle.gcd_steal.specs.Tokens.{rights};

    ghost left = { λ v. rights (drop 1 v.nodes) };

    ghost right = { λ v. rights (take 1 v.nodes) };
}

// How two tokens are joined.
pub struct Both;

impl Join<Rights> for Both {
    ghost use Rattle.std.specs.Prelude.{◌++◌, []};
    ghost use Rattle.gcd_steal.specs.Tokens.{rights};

    ghost both = { λ v w. rights (v.nodes ++ w.nodes) };

    ghost spent = { rights [] };
}

// What looking at a token tells.
pub struct Looking;

impl Play<(), Rights> for Looking {
    ghost use Rattle.gcd_steal.specs.Tokens.{LookingTells};

    ghost then = { LookingTells };
}

// The table of the tokens: one word, no slot, and the plan as its key.
pub type Tokens = Table<(), Rights, Plan, NoneTwice, Global>;

// The tokens of a plan's objects, by number, and the one from which they were split, which gives no right any more.
#[derive(Drop)]
pub struct Issued {
    pub table: Tokens,
    pub each: Vec<Token>,
    pub issuer: Token,
}

// Issues a token for each object.
pub fn issue_tokens(alloc: Global, plan: &Plan) -> Result<Issued, AllocError>
    ensures plan { IfOk result (λ t. t.table.shared.key ≡ plan.now) }
    ensures issuer { IfOk result (λ t. t.issuer.table_id ≡ t.table.shared.table_id) }
    ensures word { IfOk result (λ t. t.table.shared.table_id.words ≡ 1) }
    ensures count { IfOk result (λ t. length t.each.items ≡ length plan.now.objects) }
    ensures each { IfOk result (λ t. AreTokens t.table.shared.table_id t.each.items) }
{
    let count = plan.objects() as usize;
    let (table, mut issuer) = Table::of_words(alloc, &[0], plan)?;
    let mut each = Vec::with_capacity(alloc, count)?;
    for _number in 0..count {
        each.push(
            table
                .shared
                .split_seat::<FirstNode>(&mut issuer)
                .into_badge(),
        )?;
    }
    Ok(Issued {
        table,
        each,
        issuer: issuer.into_badge(),
    })
}

// Two tokens of two nodes: they are joined, looked at and split again.
pub fn compare_tokens(
    tokens: &Tokens,
    one: Token,
    node: Obj,
    other: Token,
    far: Obj,
) -> (Token, Token)
    requires one { IsTokenOf tokens.now.shared.table_id node.0 one }
    requires other { IsTokenOf tokens.now.shared.table_id far.0 other }
    requires word { 0 < tokens.now.shared.table_id.words }
    ensures apart { node ≢ far }
    ensures one { IsTokenOf tokens.now.shared.table_id node.0 result.0 }
    ensures other { IsTokenOf tokens.now.shared.table_id far.0 result.1 }
{
    let mut both = one.into_seat();
    tokens
        .shared
        .join_seat::<Both>(&mut both, other.into_seat());
    tokens.shared.load::<Looking>(&mut both, 0);
    let first = tokens.shared.split_seat::<FirstNode>(&mut both);
    (first.into_badge(), both.into_badge())
}

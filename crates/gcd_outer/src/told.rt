// One answer of a poller.
ghost use Rattle.std.specs.Prelude.{◌≡◌, ◌<◌, ◌≤◌, ◌++◌, ◌∷◌, [], ◌==◌, length};
ghost use Rattle.gcd_outer.specs.declared.limits.TheConstants.{MAX_TELLS};
ghost use Rattle.gcd_outer.specs.Tells.{is_empty_answer};

use crate::limits::MAX_TELLS;
use crate::tell::Tell;
use arrayvec::ArrayVec;
use std::marker::Model;

/// One answer of a poller: at most `MAX_TELLS` tells, in order. It takes no memory but its own. Contracts see
/// the list of its tells.
#[derive(Drop)]
pub struct Told {
    tells: ArrayVec<Tell, MAX_TELLS>,
}

impl Model for Told {
    ghost use Rattle.std.specs.Prelude.{List};
    ghost use Rattle.gcd_outer.specs.declared.tell.Tell.{Tell};

    ghost Value = { List Tell };

    ghost view = { λ t. t.tells.items };
}

impl Told {
    /// An answer without a tell.
    pub fn new() -> Self
        ensures { result ≡ [] }
    {
        Told {
            tells: ArrayVec::new(),
        }
    }

    /// How many tells it has.
    pub fn len(&self) -> usize
        ensures count { result ≡ length self.now }
        ensures few { result ≤ MAX_TELLS }
    {
        self.tells.len()
    }

    /// Whether it has no tell.
    pub fn is_empty(&self) -> bool
        ensures { result ≡ (length self.now == 0) }
    {
        self.tells.is_empty()
    }

    /// Whether no tell of it has bytes or an end.
    pub fn is_empty_answer(&self) -> bool
        ensures { result ≡ is_empty_answer self.now }
    {
        self.tells
            .as_slice()
            .iter()
            .all(|tell| tell.bytes == 0 && !tell.ended)
    }

    /// Its tells, in order.
    pub fn as_slice(&self) -> &[Tell]
        ensures tells { result.now ≡ self.now }
        ensures few { length result.now ≤ MAX_TELLS }
    {
        self.tells.as_slice()
    }

    /// Takes all tells out.
    pub fn clear(&mut self)
        ensures { self.new ≡ [] }
    {
        self.tells.clear();
    }

    /// Adds a tell at the end.
    pub fn push(&mut self, tell: Tell)
        requires { length self.old < MAX_TELLS }
        ensures { self.new ≡ self.old ++ tell ∷ [] }
    {
        self.tells.push(tell);
    }

    /// Takes over the tells of another answer in place of its own.
    pub fn copy_from(&mut self, other: &Told)
        ensures { self.new ≡ other.now }
    {
        self.tells.clear();
        for tell in other.tells.as_slice() {
            self.tells.push(*tell);
        }
    }
}

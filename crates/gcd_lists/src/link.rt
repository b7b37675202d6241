// A link to a block.
ghost use Rattle.std.specs.Prelude.{◌≡◌, ◌<◌, Some};

use gcd_plan::Blk;
use std::marker::Model;

/// A block or none, in two bytes: 0 is none, else the block's number and 1.
#[derive(Clone, Copy)]
pub(crate) struct Link(u16);

impl Model for Link {
    ghost use Rattle.std.specs.Prelude.{Option};
    ghost use Rattle.std.proofs.Common.{ap};
    ghost use Rattle.gcd_plan.specs.declared.numbers.Blk.{Blk};
    ghost use Rattle.gcd_lists.specs.Codes.{link_at, link_code, link_code_at};

    ghost Value = { Option Blk };

    ghost view = { λ l. link_at l.0 };

    ghost inverse = { λ to. record { 0 = link_code to } };

    ghost inverse_ok = { λ l _. ap (λ n. record { 0 = n }) (link_code_at l.0) };
}

impl Link {
    pub(crate) const NONE: Link = Link(0);

    #[inline(always)]
    pub(crate) fn of(blk: Blk) -> Link
        requires { blk.0 < 65535 }
        ensures { result ≡ Some blk }
    {
        Link(blk.0 as u16 + 1)
    }

    #[inline(always)]
    pub(crate) fn get(self) -> Option<Blk>
        ensures { result ≡ self }
    {
        match self.0 {
            0 => None,
            code => Some(Blk(code as u32 - 1)),
        }
    }
}

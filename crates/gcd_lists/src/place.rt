// Where a block waits.
ghost use Rattle.std.specs.Prelude.{◌≡◌, ◌<◌, Some};

use gcd_plan::Obj;
use std::marker::Model;

/// An object and whether a block waits there as a barrier, or none, in two bytes: 0 is none, else twice the object's number
/// and 1, and 1 more for a barrier.
#[derive(Clone, Copy)]
pub(crate) struct Place(u16);

impl Model for Place {
    ghost use Rattle.std.specs.Prelude.{Option, Bool};
    ghost use Rattle.std.proofs.Common.{ap};
    ghost use Rattle.gcd_plan.specs.declared.numbers.Obj.{Obj};
    ghost use Rattle.gcd_lists.specs.Codes.{place_at, place_code, place_code_at};

    ghost Value = { Option (Obj × Bool) };

    ghost view = { λ p. place_at p.0 };

    ghost inverse = { λ at. record { 0 = place_code at } };

    ghost inverse_ok = { λ p _. ap (λ n. record { 0 = n }) (place_code_at p.0) };
}

impl Place {
    pub(crate) const NONE: Place = Place(0);

    #[inline(always)]
    pub(crate) fn of(node: Obj, barrier: bool) -> Place
        requires { node.0 < 32767 }
        ensures { result ≡ Some (node, barrier) }
    {
        Place(node.0 as u16 * 2 + u16::from(barrier) + 1)
    }

    #[inline(always)]
    pub(crate) fn get(self) -> Option<(Obj, bool)>
        ensures { result ≡ self }
    {
        match self.0 {
            0 => None,
            code => {
                let n = code as u32 - 1;
                Some((Obj(n / 2), n % 2 == 1))
            }
        }
    }
}

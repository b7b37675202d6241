// The limit of a wait.
ghost use Rattle.std.specs.Prelude.{◌≡◌, ◌+◌, ◌<◌, ◌^◌, Some};

use std::marker::Model;

/// A time in milliseconds or none, in four bytes: 0 is none, else the time and 1.
#[derive(Clone, Copy)]
pub(crate) struct Limit(u32);

impl Model for Limit {
    ghost use Rattle.std.specs.Prelude.{ℕ, Option};
    ghost use Rattle.std.proofs.Common.{ap};
    ghost use Rattle.gcd_sync.specs.Codes.{limit_of_code, code_of, code_of_limit};

    ghost Value = { Option ℕ };

    ghost view = { λ l. limit_of_code l.0 };

    ghost inverse = { λ to. record { 0 = code_of to } };

    ghost inverse_ok = { λ l _. ap (λ n. record { 0 = n }) (code_of_limit l.0) };
}

impl Limit {
    pub(crate) const NONE: Limit = Limit(0);

    #[inline(always)]
    pub(crate) fn of(at: u32) -> Limit
        requires { at + 1 < 2 ^ 32 }
        ensures { result ≡ Some at }
    {
        Limit(at + 1)
    }

    #[inline(always)]
    pub(crate) fn get(self) -> Option<u32>
        ensures { result ≡ self }
    {
        match self.0 {
            0 => None,
            code => Some(code - 1),
        }
    }
}

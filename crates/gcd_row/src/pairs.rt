// What a pass knows of the passed words: each is at least so much.
ghost use Rattle.std.specs.Prelude.{◌≡◌, ◌≢◌, ℕ, ◌<◌, ◌+◌, ◌-◌, nat_lt, length, true, MatchOption, IfNone};
ghost use Rattle.gcd_row.specs.Passes.{IsPassOf, IsHeldAt, Knew, slots, view};
ghost use Rattle.gcd_row.specs.Plays.{Asks};
ghost use Rattle.gcd_row.specs.Ring.{ring};

use crate::board::RowBoard;
use crate::cell::Slot;
use crate::pass::RowPass;
use crate::steps::RING;

// Whether a passed word lets event n be written.
#[inline(always)]
fn lets(passed: u64, n: u32) -> bool
    ensures { result ≡ nat_lt n (passed + ring) }
{
    if passed >= 4_294_967_296 {
        return true;
    }
    u64::from(n) < passed + u64::from(RING)
}

impl<S: Slot> RowBoard<S> {
    // Loads the passed word of worker k, where those below are known. Whether it lets event n be written.
    #[inline(always)]
    fn ask_one(&self, pass: &mut RowPass<S>, k: u8, n: u32) -> bool
        requires pass { IsPassOf S.shape S.gives self.now pass.old }
        requires place { (k < self.now.table.shared.key.limits.workers) × (k ≢ 0 → (view pass.old).marks.upto ≡ k) × (n ≡ length (view pass.old).seen) }
        ensures pass { IsPassOf S.shape S.gives self.now pass.new }
        ensures slots { slots pass.new ≡ slots pass.old }
        ensures asks { (x : ℕ) × Asks (view pass.old) k x (view pass.new) × (result ≡ nat_lt n (x + ring)) }
    {
        let x = self.ask(&mut pass.seat, k);
        if !lets(x, n) {
            pass.upto = k;
            return false;
        }
        pass.floor = if k == 0 { x } else { pass.floor.min(x) };
        pass.upto = if k + 1 == self.limits.workers {
            64
        } else {
            k + 1
        };
        true
    }

    // The lowest worker whose passed word does not let event n be written. Else the pass knows that all let it.
    fn blocked(&self, pass: &mut RowPass<S>, n: u32) -> Option<u8>
        requires pass { IsPassOf S.shape S.gives self.now pass.old }
        requires place { n ≡ length (view pass.old).seen }
        ensures pass { IsPassOf S.shape S.gives self.now pass.new }
        ensures slots { slots pass.new ≡ slots pass.old }
        ensures free { IfNone result (((view pass.new).marks.upto ≡ 64) × (n < (view pass.new).marks.floor + ring)) }
        ensures held { MatchOption result (Knew (view pass.old) (view pass.new)) (λ by. IsHeldAt (view pass.old) (view pass.new) by (n - ring)) }
    {
        let mut k = 0;
        while k < self.limits.workers {
            if !self.ask_one(pass, k, n) {
                return Some(k);
            }
            k += 1;
        }
        None
    }

    // Whether the pass knows that all passed words let event n be written.
    #[inline(always)]
    fn is_free(&self, pass: &RowPass<S>, n: u32) -> bool
        requires pass { IsPassOf S.shape S.gives self.now pass.now }
        ensures { result ≡ true → ((view pass.now).marks.upto ≡ 64) × (n < (view pass.now).marks.floor + ring) }
    {
        if pass.upto != 64 {
            return false;
        }
        lets(pass.floor, n)
    }

    // The lowest worker whose passed word does not let event n be written, asked for only where the pass does not know.
    #[inline(always)]
    pub(crate) fn holder(&self, pass: &mut RowPass<S>, n: u32) -> Option<u8>
        requires pass { IsPassOf S.shape S.gives self.now pass.old }
        requires place { n ≡ length (view pass.old).seen }
        ensures pass { IsPassOf S.shape S.gives self.now pass.new }
        ensures slots { slots pass.new ≡ slots pass.old }
        ensures free { IfNone result (((view pass.new).marks.upto ≡ 64) × (n < (view pass.new).marks.floor + ring)) }
        ensures held { MatchOption result (Knew (view pass.old) (view pass.new)) (λ by. IsHeldAt (view pass.old) (view pass.new) by (n - ring)) }
    {
        if self.is_free(pass, n) {
            return None;
        }
        self.blocked(pass, n)
    }
}

// What words mean: a value, or why they are refused.
ghost use Rattle.std.specs.Prelude.{◌≡◌};
ghost use Rattle.gcd_script.specs.Causes.{cause_refusal, coded};
ghost use Rattle.gcd_script.specs.Meant.{lower, both, must};

use crate::cause::Cause;

/// What words mean, or the cause of the lowest code that applies to them.
pub type Meant<T> = Result<T, Cause>;

// Returns the cause of the lower code; the first if both have the same.
fn lower(p: Cause, q: Cause) -> Cause
    ensures { cause_refusal result ≡ lower (cause_refusal p) (cause_refusal q) }
{
    if p.code() <= q.code() { p } else { q }
}

/// Returns both values, or the cause of the lower code.
pub fn both<A: Drop, B: Drop>(a: Meant<A>, b: Meant<B>) -> Meant<(A, B)>
    ensures { coded result ≡ both (coded a) (coded b) }
{
    match a {
        Ok(a) => match b {
            Ok(b) => Ok((a, b)),
            Err(q) => Err(q),
        },
        Err(p) => match b {
            Ok(_) => Err(p),
            Err(q) => Err(lower(p, q)),
        },
    }
}

/// Returns the cause where the test fails.
pub fn must(test: bool, cause: Cause) -> Meant<()>
    ensures { coded result ≡ must test (cause_refusal cause) }
{
    if test { Ok(()) } else { Err(cause) }
}

// Whether an object is free.
ghost use Rattle.std.specs.Prelude.{◌≡◌, ◌<◌, length};
ghost use Rattle.gcd_drain.specs.Rule.{is_free_by};

use gcd_hold::Holds;
use gcd_plan::Obj;
use gcd_tree::Tree;

/// Whether the object is active, with hold 0, and not about to move.
pub fn is_free(tree: &Tree, holds: &Holds, o: Obj) -> bool
    requires object { o.0 < length tree.now.targets }
    requires holds { length holds.now.holds ≡ length tree.now.targets }
    ensures { result ≡ is_free_by tree.now holds.now o.0 }
{
    holds.is_free(o) && !tree.is_moving(o)
}

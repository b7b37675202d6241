// The right to drain a node.
ghost use Rattle.std.specs.Prelude.{◌≡◌, [], ◌∷◌, map};
ghost use Rattle.gcd_steal.specs.Tokens.{rights};

use crate::places::PlaceSeat;
use crate::tokens::Token;
use gcd_plan::Obj;

/// The right to drain one node, a queue or a source. There is one for each node of the plan, so while it is held no other
/// thread drains that node (dispatch_queue_create(3); the Drain is this project's own). It can't be copied. Dropping it is
/// possible, and its node is then drained no more.
#[derive(Drop)]
pub struct Drain {
    // It gives the right to this node alone.
    pub(crate) token: Token,
    // It holds the slot in which the node's token sleeps.
    pub(crate) place: PlaceSeat,
    pub(crate) node: Obj,
    ghost right: { token.views ≡ rights (node.0 ∷ []) ∷ [] },
    ghost placed: { map (λ x. x.0) place.me.1 ≡ node.0 ∷ [] },
}

impl Drain {
    ghost use Rattle.gcd_steal.specs.Drains.{node_of};

    /// The node that it may drain.
    pub fn node(&self) -> Obj
        ensures { result ≡ node_of self.now }
    {
        self.node
    }
}

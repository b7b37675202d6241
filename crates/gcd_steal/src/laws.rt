// What holds of Drains that are held at once.
ghost use Rattle.std.specs.Prelude.{◌≡◌, ◌≢◌};
ghost use Rattle.gcd_steal.specs.Drains.{node_of, sight_with};
ghost use Rattle.gcd_steal.specs.Racks.{IsRackDrain};

use crate::bench::Rack;
use crate::drain::Drain;
use crate::tokens::compare_tokens;

/// Two Drains are of two nodes. It gives both back; a program needs it for its clause alone. Three
/// loads of a word that no step writes.
pub fn two_drains_have_two_nodes(rack: &Rack, one: Drain, other: Drain) -> (Drain, Drain)
    requires one { IsRackDrain rack.now one }
    requires other { IsRackDrain rack.now other }
    ensures apart { node_of one ≢ node_of other }
    ensures one { IsRackDrain rack.now result.0 × (node_of result.0 ≡ node_of one)
        × (sight_with result.0 ≡ sight_with one) }
    ensures other { IsRackDrain rack.now result.1 × (node_of result.1 ≡ node_of other)
        × (sight_with result.1 ≡ sight_with other) }
{
    let Drain { token, place, node } = one;
    let Drain {
        token: far_token,
        place: far_place,
        node: far,
    } = other;
    let (token, far_token) = compare_tokens(&rack.tokens, token, node, far_token, far);
    (
        Drain { token, place, node },
        Drain {
            token: far_token,
            place: far_place,
            node: far,
        },
    )
}

// A tree in an array, in which each node that has children is the lesser of them.
ghost use Rattle.std.specs.Prelude.{◌≡◌, ◌+◌, ◌*◌, ◌<◌, ◌≤◌, ℕ, length};
ghost use Rattle.gcd_sets.specs.Tree.{node_at, HoldsBut};

/// Makes each node from `at` upwards the lesser of its children again, where all others are. It stops at a node that is so
/// already.
pub fn lift(nodes: &mut Vec<u32>, len: usize, mut at: usize)
    requires long { length nodes.old.items ≡ 2 * len }
    requires within { at < len }
    requires holds { HoldsBut nodes.old.items at }
    ensures long { length nodes.new.items ≡ 2 * len }
    ensures holds { HoldsBut nodes.new.items 0 }
    ensures leaves { (k : ℕ) → len ≤ k → node_at nodes.new.items k ≡ node_at nodes.old.items k }
{
    while at > 0 {
        let lesser = nodes[2 * at].min(nodes[2 * at + 1]);
        if nodes[at] == lesser {
            return;
        }
        nodes[at] = lesser;
        at /= 2;
    }
}

/// The child that is as its parent is.
pub fn lesser_child(nodes: &[u32], len: usize, at: usize) -> usize
    requires long { length nodes.now ≡ 2 * len }
    requires within { at < len }
    requires above { 0 < at }
    requires holds { HoldsBut nodes.now 0 }
    ensures low { 2 * at ≤ result }
    ensures high { result ≤ 2 * at + 1 }
    ensures same { node_at nodes.now result ≡ node_at nodes.now at }
{
    if nodes[2 * at] == nodes[at] {
        2 * at
    } else {
        2 * at + 1
    }
}

// Counts along a chain.
ghost use Rattle.std.specs.Prelude.{◌≡◌, ℕ, ◌+◌, ◌<◌, ◌≤◌, ◌^◌, ◌==◌, length, slice_index, count_by};
ghost use Rattle.gcd_plan.specs.Chains.{chain_by};
ghost use Rattle.gcd_tree.specs.TreeView.{target_in};
ghost use Rattle.gcd_tree.specs.IsTree.{TargetsFit};

use crate::chain::Chain;
use gcd_plan::Obj;

/// Adds 1 to the count of each object of the node's chain.
pub fn raise_along(targets: &[Obj], counts: &mut [u32], node: Obj)
    requires fit { TargetsFit targets.now }
    requires object { node.0 < length targets.now }
    requires as_many { length counts.old ≡ length targets.now }
    requires room { (o : ℕ) → o < length targets.now
        → slice_index counts.old o + count_by (λ x. x == o) (chain_by (target_in targets.now) (length targets.now) node.0) < 2 ^ 32 }
    ensures { (o : ℕ) → o < length targets.now → slice_index counts.new o
        ≡ slice_index counts.old o + count_by (λ x. x == o) (chain_by (target_in targets.now) (length targets.now) node.0) }
{
    for o in Chain::along(targets, node) {
        counts[o.0 as usize] += 1;
    }
}

/// Takes 1 off the count of each object of the node's chain.
pub fn lower_along(targets: &[Obj], counts: &mut [u32], node: Obj)
    requires fit { TargetsFit targets.now }
    requires object { node.0 < length targets.now }
    requires as_many { length counts.old ≡ length targets.now }
    requires enough { (o : ℕ) → o < length targets.now
        → count_by (λ x. x == o) (chain_by (target_in targets.now) (length targets.now) node.0) ≤ slice_index counts.old o }
    ensures { (o : ℕ) → o < length targets.now
        → slice_index counts.new o + count_by (λ x. x == o) (chain_by (target_in targets.now) (length targets.now) node.0)
        ≡ slice_index counts.old o }
{
    for o in Chain::along(targets, node) {
        counts[o.0 as usize] -= 1;
    }
}

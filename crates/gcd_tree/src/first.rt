// What a plan says of the first targets.
ghost use Rattle.std.specs.Prelude.{◌≡◌, IfOk, map};
ghost use Rattle.gcd_tree.specs.IsTree.{MarkTargets};
ghost use Rattle.gcd_plan.specs.Kinds.{is_node_kind};

use gcd_plan::{Obj, Plan};
use std::alloc::{AllocError, Global};

/// The first target of each object of the plan.
pub fn first_targets(alloc: Global, plan: &Plan) -> Result<Vec<Obj>, AllocError>
    ensures { IfOk result (λ v. v.items ≡ map (λ o. o.target) plan.now.objects) }
{
    let mut targets = Vec::new(alloc);
    for o in 0..plan.objects() {
        targets.push(plan.first_target(Obj(o)))?;
    }
    Ok(targets)
}

/// Which objects of the plan are queues or sources.
pub fn nodes(alloc: Global, plan: &Plan) -> Result<Vec<bool>, AllocError>
    ensures { IfOk result (λ v. v.items ≡ map (λ o. is_node_kind o.kind) plan.now.objects) }
{
    let mut nodes = Vec::new(alloc);
    for o in 0..plan.objects() {
        nodes.push(plan.kind(Obj(o)).is_node())?;
    }
    Ok(nodes)
}

/// Marks of the objects that have an object as their first target.
pub fn first_marks(alloc: Global, plan: &Plan) -> Result<Vec<bool>, AllocError>
    ensures { IfOk result (λ v. MarkTargets (map (λ o. o.target) plan.now.objects) v.items) }
{
    let mut marks = vec![in alloc; false; plan.objects() as usize]?;
    for o in 0..plan.objects() {
        marks[plan.first_target(Obj(o)).0 as usize] = true;
    }
    Ok(marks)
}

/// Both at once, by object: whether it is a queue or a source, and the mark.
pub fn nodes_and_marks(alloc: Global, plan: &Plan) -> Result<(Vec<bool>, Vec<bool>), AllocError>
    ensures nodes { IfOk result (λ v. v.0.items ≡ map (λ o. is_node_kind o.kind) plan.now.objects) }
    ensures marks { IfOk result (λ v. MarkTargets (map (λ o. o.target) plan.now.objects) v.1.items) }
{
    let nodes = nodes(alloc, plan)?;
    let marks = first_marks(alloc, plan)?;
    Ok((nodes, marks))
}

// The names of a plan's blocks and sources.
ghost use Rattle.std.specs.Prelude.{◌≡◌, List, ℕ, Some, IfOk, OnOk, if◌then◌else◌};
ghost use Rattle.std.specs.Str.{bytes_eq};
ghost use Rattle.gcd_plan.specs.Validity.{IsPlan};
ghost use Rattle.gcd_journal.specs.Named.{IsLookUp, look_of};

use gcd_plan::{Blk, Obj, Plan, Run};
use std::alloc::{AllocError, Global};
use std::collections::HashMap;

/// The runs of a plan's blocks and sources by their names, so that a name costs one look-up. The hash has a fixed seed, so
/// names that are made to collide cost a look at each other.
#[derive(Drop)]
pub struct Names<'a> {
    runs: HashMap<&'a [u8], Run>,
}

impl<'a> Names<'a> {
    /// The names of the plan; an `Err` comes only where memory runs out.
    pub fn new(alloc: Global, plan: &'a Plan) -> Result<Names<'a>, AllocError>
        ensures known { IfOk result (λ names. IsLookUp plan.now (look_of names.runs)) }
        ensures valid { IsPlan plan.now }
    {
        let mut runs = HashMap::with_capacity(alloc, plan.blocks() as usize)?;
        for b in 0..plan.blocks() {
            learn(&mut runs, plan.name_of_blk(Blk(b)), Run::Block(Blk(b)))?;
        }
        for o in 0..plan.objects() {
            if plan.kind(Obj(o)).is_source() {
                learn(&mut runs, plan.name_of_obj(Obj(o)), Run::Source(Obj(o)))?;
            }
        }
        Ok(Names { runs })
    }

    /// The run of the block or source that has the name; None exactly where there is none.
    pub fn run(&self, name: &[u8]) -> Option<Run>
        ensures { result ≡ look_of self.now.runs name.now }
    {
        self.runs.get(name).copied()
    }
}

// From now on the name is the run's.
fn learn<'a>(runs: &mut HashMap<&'a [u8], Run>, name: &'a str, run: Run) -> Result<(), AllocError>
    ensures { OnOk result ((other : List ℕ) → look_of runs.new other ≡ (if bytes_eq name.now other then Some run else look_of runs.old other)) }
{
    runs.insert(name.as_bytes(), run)?;
    Ok(())
}

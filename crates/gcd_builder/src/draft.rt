// What was added to a plan so far.
ghost use Rattle.std.specs.Prelude.{◌≡◌, IfOk};
ghost use Rattle.gcd_plan.specs.PlanView.{view_of};
ghost use Rattle.gcd_builder.specs.Changes.{empty_plan};

use crate::additions::{declare, push_block, push_object};
use crate::meaning::Meaning;
use gcd_plan::{DEFAULT_UNTIL, Kind, Obj, Parts};
use std::alloc::{AllocError, Global};
use std::collections::HashMap;

/// What was added to a plan so far: the parts of the plan, and beside them what each name means, which blocks are submitted,
/// which strips are applied and how many acts there are (this project's own rule). [`crate::PlanBuilder`] judges what it
/// adds. The calls of this type do not: each requires that the addition fits, so it is for callers that judge by
/// themselves, as the parser of scripts does.
#[derive(Drop)]
pub struct PlanDraft<'a> {
    /// The parts of the plan.
    pub parts: Parts,
    /// What each name means.
    pub meanings: HashMap<&'a str, Meaning>,
    /// For each block, whether an act submits it, or a source has it as its cancellation block.
    pub submitted: Vec<bool>,
    /// For each strip, whether an act applies it (dispatch_apply(3)).
    pub applied: Vec<bool>,
    /// The number of acts in all bodies together.
    pub acts: usize,
}

impl<'a> PlanDraft<'a> {
    ghost use Rattle.gcd_builder.specs.Agreement.{Agrees};
    ghost use Rattle.gcd_builder.specs.Names.{meaning_of};

    /// The draft to which nothing was added: `root` and `main` alone. There is room for so many names at once. An `Err` comes
    /// only where memory runs out (this project's own rule).
    pub fn new(alloc: Global, names: usize) -> Result<PlanDraft<'a>, AllocError>
        ensures view { IfOk result (λ d. view_of d.parts ≡ empty_plan) }
        ensures agrees { IfOk result Agrees }
    {
        let mut meanings = HashMap::with_capacity(alloc, names)?;
        declare(&mut meanings, "root", Meaning::Object(Obj(0)))?;
        Ok(PlanDraft {
            parts: first_parts(alloc)?,
            meanings,
            submitted: vec![in alloc; false]?,
            applied: Vec::new(alloc),
            acts: 0,
        })
    }

    /// Returns what a name means; None exactly where nothing of this name was added and it is not `root` (this project's own
    /// rule).
    pub fn meaning(&self, name: &str) -> Option<Meaning>
        requires { Agrees self.now }
        ensures { result ≡ meaning_of (view_of self.now.parts) name.now }
    {
        self.meanings.get(name).copied()
    }

    /// Returns the parts of the plan.
    pub fn into_parts(self) -> Parts
        ensures { result ≡ self.entry.parts }
    {
        let PlanDraft { parts, .. } = self;
        parts
    }
}

// `root` and `main` alone.
fn first_parts(alloc: Global) -> Result<Parts, AllocError>
    ensures { IfOk result (λ parts. view_of parts ≡ empty_plan) }
{
    let mut parts = Parts {
        objects: Vec::new(alloc),
        blocks: Vec::new(alloc),
        files: Vec::new(alloc),
        until: DEFAULT_UNTIL,
        intake: None,
        strips: Vec::new(alloc),
    };
    push_object(
        alloc,
        &mut parts,
        "root",
        Kind::Concurrent,
        Obj(0),
        true,
        "",
    )?;
    push_block(alloc, &mut parts, "main", None)?;
    Ok(parts)
}

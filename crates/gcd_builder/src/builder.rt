// A builder of plans.
ghost use Rattle.std.specs.Prelude.{◌≡◌, true, false, IfErr, IfOk, OnOk};
ghost use Rattle.gcd_plan.specs.Validity.{IsPlan};
ghost use Rattle.gcd_builder.specs.Changes.{empty_plan};
ghost use Rattle.gcd_builder.specs.Refusals.{with_plan};
ghost use Rattle.gcd_builder.specs.declared.fault.BuildFault.TheVariants.{Memory};

use crate::draft::PlanDraft;
use crate::fault::BuildFault;
use gcd_plan::Plan;
use std::alloc::{AllocError, Global};
use std::marker::Model;

// Names for which there is room at once.
const FIRST_NAMES: usize = 64;

/// Builds a plan, one thing after the other. Object 0 is the queue `root` and block 0 is `main`; each call that adds something
/// returns its number, from 1 for objects and blocks, and from 0 for files and strips. Names are borrowed as long as the builder
/// lives (this project's own rule).
///
/// A call that returns a [`BuildFault`] other than [`BuildFault::Memory`] leaves the builder as it was. After
/// [`BuildFault::Memory`] each later call that adds something, and [`PlanBuilder::finish`], returns that again.
#[derive(Drop)]
pub struct PlanBuilder<'a> {
    pub(crate) alloc: Global,
    pub(crate) draft: PlanDraft<'a>,
    // Memory ran out in one of the calls.
    pub(crate) spent: bool,
}

impl<'a> Model for PlanBuilder<'a> {
    ghost use Rattle.std.specs.Prelude.{◌≡◌, false};
    ghost use Rattle.gcd_plan.specs.PlanView.{view_of};
    ghost use Rattle.gcd_builder.specs.Agreement.{IsSound};
    ghost use Rattle.gcd_builder.specs.Refusals.{BuilderView};

    ghost Value = { BuilderView };

    ghost view = { λ b. record { plan = view_of b.draft.parts; spent = b.spent } };

    ghost invariant = { λ b. b.spent ≡ false → IsSound b.draft };
}

impl<'a> PlanBuilder<'a> {
    /// Returns the builder of a plan that has `root` and `main` alone. An `Err` comes only where memory runs out
    /// (this project's own rule).
    pub fn new(alloc: Global) -> Result<PlanBuilder<'a>, AllocError>
        ensures { IfOk result (λ b. b ≡ with_plan empty_plan) }
    {
        Ok(PlanBuilder {
            alloc,
            draft: PlanDraft::new(alloc, FIRST_NAMES)?,
            spent: false,
        })
    }

    /// Returns the plan of what was added, whose copies share its parts. An `Err` comes only where memory runs out, or ran out
    /// in an earlier call, and is [`BuildFault::Memory`] (this project's own rule).
    pub fn finish(self) -> Result<Plan, BuildFault<'a>>
        ensures unspent { OnOk result (self.entry.spent ≡ false) }
        ensures plan { IfOk result (λ plan. plan ≡ self.entry.plan) }
        ensures valid { IfOk result IsPlan }
        ensures refused { IfErr result (λ fault. fault ≡ Memory) }
    {
        let PlanBuilder {
            alloc,
            draft,
            spent,
        } = self;
        if spent {
            return Err(BuildFault::Memory);
        }
        Ok(Plan::of_valid_parts(draft.into_parts()).share(alloc)?)
    }
}

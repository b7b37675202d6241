// What the lines so far declare.
ghost use Rattle.std.specs.Prelude.{◌≡◌, IfOk};
ghost use Rattle.gcd_script.specs.Drafts.{empty_draft};

use gcd_builder::PlanDraft;
use gcd_plan::Run;
use std::alloc::{AllocError, Global};

/// What the lines so far declare: the plan, the open body, and what the lines alone know of it.
#[derive(Drop)]
pub struct Draft<'a> {
    pub lines: u32,
    pub plan: PlanDraft<'a>,
    pub body: Option<Run>,
    pub has_main: bool,
    pub has_until: bool,
    pub handlers: Vec<bool>,
}

impl<'a> Draft<'a> {
    ghost use Rattle.gcd_builder.specs.Agreement.{Agrees};
    ghost use Rattle.gcd_script.specs.Views.{draft_view};

    /// The draft before the first line: `root` and `main` alone. There is room for so many names at once.
    pub fn new(alloc: Global, names: usize) -> Result<Draft<'a>, AllocError>
        ensures view { IfOk result (λ d. draft_view d ≡ empty_draft) }
        ensures agrees { IfOk result (λ d. Agrees d.plan) }
    {
        Ok(Draft {
            lines: 0,
            plan: PlanDraft::new(alloc, names)?,
            body: None,
            has_main: false,
            has_until: false,
            handlers: vec![in alloc; false]?,
        })
    }
}

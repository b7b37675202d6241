// The input of a run over files.
use gcd_plan::Plan;

/// The input of a run over files. Each file of the plan has one content.
#[derive(Clone, Copy)]
pub struct Over<'a> {
    /// The plan.
    pub plan: &'a Plan,
    /// The contents of the plan's files, in their order.
    pub files: &'a [Vec<u8>],
    /// The run ends at this many events, at least 1. `MAX_EVENTS` of `gcd_plan` is the limit of all runs.
    pub most: u32,
}

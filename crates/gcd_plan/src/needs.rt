// What the acts of a plan ask a run to keep of each block.
ghost use Rattle.std.specs.Prelude.{◌≡◌, ◌||◌};
ghost use Rattle.std.specs.List.{list_any};
ghost use Rattle.gcd_plan.specs.Effects.{parks};
ghost use Rattle.gcd_plan.specs.Needs.{AreNeeds, has_limit, is_of_block};
ghost use Rattle.gcd_plan.specs.PlanView.{view_of};

use crate::act::Act;
use crate::parts::Parts;

/// What the acts of a plan ask a run to keep of each block.
#[derive(Clone, Copy)]
pub struct Needs {
    /// Marks: an act cancels a block, waits for its end, or submits another once it has ended (dispatch_block_cancel(3),
    /// dispatch_block_wait(3), dispatch_block_notify(3)).
    pub marks: bool,
    /// Limits: an act waits with one (dispatch_semaphore_wait(3), dispatch_group_wait(3)).
    pub limits: bool,
    /// What a parked block waits for: an act parks its block ([`Act::parks`]).
    pub parks: bool,
}

// Whether the act cancels a block, waits for its end, or submits another once it has ended.
fn is_of_block(act: Act) -> bool
    ensures { result ≡ is_of_block act }
{
    matches!(
        act,
        Act::CancelBlock(_) | Act::WaitBlock(_) | Act::NotifyBlock(..)
    )
}

// Whether the act waits with a limit.
fn has_limit(act: Act) -> bool
    ensures { result ≡ has_limit act }
{
    matches!(act, Act::GroupWaitFor(..) | Act::WaitFor(..))
}

fn any_of_block(acts: &[Act]) -> bool
    ensures { result ≡ list_any is_of_block acts.now }
{
    acts.iter().any(|act| is_of_block(*act))
}

fn any_limit(acts: &[Act]) -> bool
    ensures { result ≡ list_any has_limit acts.now }
{
    acts.iter().any(|act| has_limit(*act))
}

fn any_parks(acts: &[Act]) -> bool
    ensures { result ≡ list_any parks acts.now }
{
    acts.iter().any(|act| act.parks())
}

impl Needs {
    // Adds the needs of more acts.
    fn with(self, acts: &[Act]) -> Needs
        ensures marks { result.marks ≡ (self.marks || list_any is_of_block acts.now) }
        ensures limits { result.limits ≡ (self.limits || list_any has_limit acts.now) }
        ensures parks { result.parks ≡ (self.parks || list_any parks acts.now) }
    {
        Needs {
            marks: self.marks | any_of_block(acts),
            limits: self.limits | any_limit(acts),
            parks: self.parks | any_parks(acts),
        }
    }

    /// What the acts of these parts ask for. It looks at each act three times at most.
    pub fn of(parts: &Parts) -> Needs
        ensures { AreNeeds result (view_of parts.now) }
    {
        let mut needs = Needs {
            marks: false,
            limits: false,
            parks: false,
        };
        for b in &parts.blocks {
            needs = needs.with(&b.acts);
        }
        for o in &parts.objects {
            needs = needs.with(&o.handler);
        }
        needs
    }
}

// Lawful histories, an event on. Each function's contract is a law; its body is empty.
ghost use Rattle.std.specs.Prelude.{◌≡◌, ℕ, List, [], ◌∷◌, ◌++◌, take, None};
ghost use Rattle.gcd_plan.specs.PlanView.{PlanView};
ghost use Rattle.gcd_plan.specs.Validity.{IsPlan};
ghost use Rattle.gcd_event.specs.declared.event.Event.{Event};
ghost use Rattle.gcd_event.specs.Fits.{IsFitting};
ghost use Rattle.gcd_history.specs.History.{why, IsLawful};

/// The empty history is lawful (this project's own rule).
pub fn lawful_begins()
    ensures { (plan : PlanView) → IsLawful plan [] }
{}

/// A lawful history with an event that is permitted next is lawful (this project's own rule).
pub fn lawful_goes_on()
    ensures { (plan : PlanView) (h : List Event) (e : Event) → IsLawful plan h → why plan h e ≡ None
        → IsLawful plan (h ++ e ∷ []) }
{}

/// The front of a lawful history is lawful (this project's own rule).
pub fn fronts_are_lawful()
    ensures front { (plan : PlanView) (h rest : List Event) → IsLawful plan (h ++ rest) → IsLawful plan h }
    ensures first { (plan : PlanView) (h : List Event) (i : ℕ) → IsLawful plan h → IsLawful plan (take i h) }
{}

/// The event after a front of a lawful history is permitted there (this project's own rule).
pub fn next_is_permitted()
    ensures { (plan : PlanView) (h : List Event) (e : Event) (rest : List Event)
        → IsLawful plan (h ++ e ∷ rest) → why plan h e ≡ None }
{}

/// An event that is permitted fits: its fields are in their ranges (this project's own rule).
pub fn permitted_events_fit()
    ensures { (plan : PlanView) (h : List Event) (e : Event) → IsPlan plan → why plan h e ≡ None
        → IsFitting e }
{}

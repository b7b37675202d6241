// What holds of each history that a machine stands for. Each function's contract is a law; its body is empty.
ghost use Rattle.std.specs.Prelude.{◌≡◌, List};
ghost use Rattle.gcd_plan.specs.PlanView.{PlanView};
ghost use Rattle.gcd_plan.specs.Validity.{IsPlan};
ghost use Rattle.gcd_event.specs.declared.event.Event.{Event};
ghost use Rattle.gcd_history.specs.History.{IsLawful};
ghost use Rattle.gcd_refinement.specs.MachineView.{MachineView};
ghost use Rattle.gcd_machine.specs.Stands.{StandsFor};

/// The histories that a machine stands for are lawful, of its own plan, which is valid (this project's own rule).
pub fn histories_are_lawful()
    ensures lawful { (m : MachineView) (plan : PlanView) (h : List Event) → StandsFor m plan h → IsLawful plan h }
    ensures own { (m : MachineView) (plan : PlanView) (h : List Event) → StandsFor m plan h → m.plan ≡ plan }
    ensures valid { (m : MachineView) (plan : PlanView) (h : List Event) → StandsFor m plan h → IsPlan plan }
{}

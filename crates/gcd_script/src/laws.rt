// Laws over the definitions of the grammar, each a function whose contract is the law.
ghost use Rattle.gcd_script.specs.Laws.{ScriptsDeclareValidPlans};

/// The plan that a script declares is valid.
pub fn scripts_declare_valid_plans()
    ensures { ScriptsDeclareValidPlans }
{}

//! Laws of scripts. Each function takes nothing and does nothing: its contract is the law.

ghost use Rattle.std.specs.Prelude.{◌≡◌, ℕ, List};
ghost use Rattle.record_lines.specs.Steps.{SaysStep, Step};
ghost use Rattle.lobby_script.specs.declared.action.Action.{Action};
ghost use Rattle.lobby_script.specs.Actions.{Says, action_of};
ghost use Rattle.lobby_script.specs.Script.{OutputOf, StopsAt};

/// A script has one output: no other is its own, its first bad step and the output before that are
/// determined, and a script with an output has no bad step.
pub fn script_has_one_output()
    ensures output { (script out other : List ℕ) → OutputOf script out → OutputOf script other → out ≡ other }
    ensures bad_step { (script : List ℕ) (k l : ℕ) (out other : List ℕ) → StopsAt script k out → StopsAt script l other
        → (k ≡ l) × (out ≡ other) }
    ensures not_both { (script : List ℕ) (k : ℕ) (out other : List ℕ) → OutputOf script out → StopsAt script k other
        → ⊥ }
{}

/// A line of a record, without its place, is a line of a script, and asks for that step alone.
pub fn step_is_read()
    ensures says { (line : List ℕ) (step : Step) → SaysStep line step → Says line (action_of step) }
    ensures only { (line : List ℕ) (step : Step) (action : Action) → SaysStep line step → Says line action
        → action ≡ action_of step }
{}

// Laws of the definitions, as contracts of functions that do nothing.

ghost use Rattle.std.specs.Prelude.{◌≡◌, ℕ, List};
ghost use Rattle.bb_words.specs.Commands.{CommandValue};
ghost use Rattle.bb_words.specs.Calls.{Means};

/// Words mean one command at most.
pub fn one_command()
    ensures { (words : List (List ℕ)) (command other : CommandValue) → Means words command → Means words other → command ≡ other }
{}

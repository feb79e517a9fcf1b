// The worked examples of the rules, as one statement.
#![tactic(auto)]

ghost use Rattle.worked_examples.specs.Examples.{Examples};

/// The worked examples of the rules hold of the definitions that the calls are proved against.
pub fn examples_hold()
    ensures { Examples }
{}

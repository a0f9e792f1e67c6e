//! The worked cases of the definitions: what small graphs define, what sets weigh, and how high trees are.

#![tactic(auto)]

ghost use Rattle.worked.specs.Worked.{WorkedCases};

/// The worked cases, in one computation: in each graph exactly the expected triples are defined, and each set and each height is as it should be.
pub fn worked_cases()
    ensures { WorkedCases }
{}

//! The laws of what a grammar defines over a graph. A function here computes nothing: its promise is the law, and a caller has it from the call on.

ghost use Rattle.graph.specs.Items.{BytesMatch};
ghost use Rattle.graph.specs.Laws.{EdgesDefined, DefinedGrows, DefinedLeast, GroundNeeded, DueDefined, SolutionExact, DefinedInRange};
ghost use Rattle.graph.specs.Saturation.{SaturationExact};
ghost use Rattle.graph.specs.Cases.{WorkedCases};

/// A byte stands for an item exactly where the item has that byte.
pub fn bytes_match()
    ensures { BytesMatch }
{}

/// Where edges go from places to places, an edge is defined.
pub fn edges_defined()
    ensures { EdgesDefined }
{}

/// More places, more rules and more edges define no less, wherever the edges go.
pub fn defined_grows()
    ensures { DefinedGrows }
{}

/// Where edges go from places to places, every set that contains them and leaves none due contains all that is defined.
pub fn defined_least()
    ensures { DefinedLeast }
{}

/// Where edges may go anywhere, a set can contain them, leave none due, and still lack what is defined.
pub fn ground_needed()
    ensures { GroundNeeded }
{}

/// Where edges go from places to places, what is due over a set of defined triples is defined.
pub fn due_defined()
    ensures { DueDefined }
{}

/// Where edges go from places to places, a set that contains them, holds only defined triples and leaves none due holds exactly the defined ones.
pub fn solution_exact()
    ensures { SolutionExact }
{}

/// Where the edges and the heads of the rules are in range, so is all that is defined.
pub fn defined_in_range()
    ensures { DefinedInRange }
{}

/// Where the places are below n, and the edges and the heads of the rules in range, the saturation holds exactly the defined triples.
pub fn saturation_exact()
    ensures { SaturationExact }
{}

/// The worked cases, in one computation: in each of them, exactly the expected triples are defined.
pub fn worked_cases()
    ensures { WorkedCases }
{}

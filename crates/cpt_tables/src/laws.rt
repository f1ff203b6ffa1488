//! Laws of tables: their contracts are what they say, and their bodies are empty.

ghost use Rattle.cpt_tables.specs.Bounds.{AdmissiblePairsBound, AdmissibleDistsBound};
ghost use Rattle.cpt_tables.specs.Unique.{OneBest, ZeroGoalsHold};

/// Over an admissible pair table each moment of each valid plan at which two atoms hold is at least their value.
pub fn pairs_bound()
    ensures { AdmissiblePairsBound }
{}

/// Over tables that are admissible each moment of each valid plan at which an atom holds, and which is not before an end
/// of an action, is at least the distance of the action to the atom after that end.
pub fn dists_bound()
    ensures { AdmissibleDistsBound }
{}

/// A task has one pair of best tables.
pub fn one_best()
    ensures { OneBest }
{}

/// Where the greatest pair table gives the goal 0, each atom of the goal is initial.
pub fn zero_goals_hold()
    ensures { ZeroGoalsHold }
{}

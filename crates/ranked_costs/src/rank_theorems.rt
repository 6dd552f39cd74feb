//! What holds of the bits of costs behind the clauses of a closure.
ghost use Rattle.ranked_costs.specs.Ranked.{ClosureInRange, ClosureSmall, ClosureCosts, ClosureSpells};

use crate::limit_laws;
use valid_models::closure_laws;

/// Behind the clauses of a closure, what `rank_costs` asks for holds, and its bits rank the graphs
/// by their cost vectors. In each model they spell the vector of its graph. Within the limits its
/// sums are small.
pub fn costs_laws()
    ensures range { ClosureInRange }
    ensures small { ClosureSmall }
    ensures ranks { ClosureCosts }
    ensures spells { ClosureSpells }
{
    closure_laws();
    limit_laws();
}

//! What each search begins with: the rules as clauses.

ghost use Rattle.std.specs.Prelude.{◌≡◌, true, IfOk};
ghost use Rattle.possible_closure.specs.Closures.{closure_of};
ghost use Rattle.problem_encoding.specs.Encodings.{AreRules, RulesDecode};
ghost use Rattle.problem_encoding.specs.OfTablePlan.Kept.{has_right_values};

use crate::{Progress, Rules, Stage, encode_rules};
use possible_closure::Closure;
use problem::Problem;
use std::alloc::{AllocError, Global};

/// The rules as clauses; `progress` is told that they are made, and then how many are searched.
pub(crate) fn rules_to_search<P: Progress>(
    alloc: Global,
    problem: &Problem,
    closure: &Closure,
    progress: &mut P,
) -> Result<Rules, AllocError>
    requires closure { closure.now ≡ closure_of problem.now }
    requires values { has_right_values problem.now ≡ true }
    ensures ruled { IfOk result (AreRules problem.now) }
    ensures decodes { IfOk result (λ rules. RulesDecode problem.now) }
{
    let packages = closure.names().len() as u64;
    progress.tell(Stage::Encoding { packages });
    let rules = encode_rules(alloc, problem, closure)?;
    progress.tell(Stage::Searching {
        variables: rules.clauses.vars(),
        clauses: rules.clauses.len(),
    });
    Ok(rules)
}

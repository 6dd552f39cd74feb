//! What gives the formulas of conditions.

use clause_formulas::Formula;
use recipe_data::Condition;
use std::alloc::{AllocError, Global};

/// The formula of each condition of a package, as `met` of a rule asks for it.
pub trait MetConditions {
    ghost use Rattle.std.specs.Prelude.{◌≡◌, IfOk};
    ghost use Rattle.clause_formulas.specs.Statements.{Statement};
    ghost use Rattle.recipe_data.specs.OfSpecGrammar.Condition.{Condition};
    ghost use Rattle.graph_core.specs.Graphs.{Text};

    ghost condition_of: { Self → Text → Condition → Statement };

    /// The formula of a condition of the package of this name.
    fn met(&self, alloc: Global, name: &str, when: &Condition) -> Result<Formula, AllocError>
        ensures { IfOk result (λ formula. formula ≡ condition_of self.now name.now when.now) };
}

//! The laws of the layers below, together.
ghost use Rattle.valid_models.specs.Closures.{ClosureIsRight, ClosureDecodes, ClosureStructured, ClosureTable, ClosureInRange, ClosureRanks};

use crate::{
    encoding_laws, model_laws, plan_laws, ranking_laws, right_rules, right_tables, spelling_laws,
};

/// The table and the formulas of a closure are right. Models of its clauses meet the table's
/// structure and decode to just the valid graphs, and bits behind them rank these. The variables of
/// the table, and of the conditions' values, are among those of the clauses.
pub fn closure_laws()
    ensures right { ClosureIsRight }
    ensures decodes { ClosureDecodes }
    ensures structured { ClosureStructured }
    ensures table { ClosureTable }
    ensures range { ClosureInRange }
    ensures ranks { ClosureRanks }
{
    plan_laws();
    spelling_laws();
    right_tables();
    right_rules();
    encoding_laws();
    model_laws();
    ranking_laws();
}

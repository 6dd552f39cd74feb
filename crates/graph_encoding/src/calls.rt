//! The clauses of a problem.
ghost use Rattle.std.specs.Prelude.{◌≡◌, ℕ, ◌≤◌, Bool, [], IfOk};
ghost use Rattle.graph_core.specs.Graphs.{Content};
ghost use Rattle.graph_levels.specs.Stages.{Decodes};
ghost use Rattle.graph_encoding.specs.Formulas.{IsRightTable, AreRightFormulas, PathsBelow};
ghost use Rattle.graph_encoding.specs.Encodings.{levels_made, encode_on, told_in, IsValid};
ghost use Rattle.graph_encoding.specs.Best.{values_for};
ghost use Rattle.literal_table.specs.Tables.{table_names};
ghost use Rattle.graph_levels.specs.Levels.{places_of};
ghost use Rattle.graph_encoding.specs.Ranges.{AreInRange, path_words};

use crate::added::{add_vars, assert_each};
use crate::formulas::RuleFormulas;
use crate::rules::add_rules;
use clause_formulas::Defined;
use clause_store::ClauseList;
use graph_levels::{PathLits, add_levels, define_edges};
use literal_table::LiteralTable;
use plain_data::{List, Word};
use problem::Problem;
use std::alloc::{AllocError, Global};

/// The clauses of a problem, and what is defined for each of its conditions, by their places.
#[derive(Drop)]
pub struct ProblemClauses {
    pub list: ClauseList,
    pub values: List<Defined>,
}

/// The clauses of a problem over a table with so many variables. To the targets, conditions may
/// speak of paths.
pub fn encode<F: RuleFormulas>(
    alloc: Global,
    problem: &Problem,
    table: &LiteralTable,
    vars: u64,
    formulas: &F,
    targets: &[Word],
) -> Result<ProblemClauses, AllocError>
    requires { AreInRange table.now vars (F.formulas formulas.now table.now) }
    ensures built { IfOk result (λ made. encode_on problem.now table.now vars
        (F.formulas formulas.now table.now)
        targets.now ≡ made.list) }
    ensures values { IfOk result (λ made. made.values ≡ values_for problem.now table.now vars
        (F.formulas formulas.now table.now) targets.now) }
    ensures decodes { IfOk result (λ made. (decode : (ℕ → Bool) → Content)
        (holds : ℕ → Content → Bool)
        → IsRightTable problem.now table.now vars (F.formulas formulas.now table.now) decode
        → AreRightFormulas problem.now table.now vars (F.formulas formulas.now table.now)
        (told_in table.now targets.now) holds
        → Decodes made.list decode (IsValid problem.now)) }
{
    let mut clauses = ClauseList::new(alloc);
    let paths = add_structure(alloc, &mut clauses, problem, table, vars, formulas, targets)?;
    let values = add_rules(alloc, &mut clauses, problem, table, formulas, &paths)?;
    Ok(ProblemClauses {
        list: clauses,
        values: List::from_vec(values),
    })
}

// The variables of the table, its structure, a literal for each edge, and levels.
fn add_structure<F: RuleFormulas>(
    alloc: Global,
    clauses: &mut ClauseList,
    problem: &Problem,
    table: &LiteralTable,
    vars: u64,
    formulas: &F,
    targets: &[Word],
) -> Result<PathLits, AllocError>
    requires range { AreInRange table.now vars (F.formulas formulas.now table.now) }
    requires start { clauses.old ≡ record { entries = []; vars = 0 } }
    ensures built { IfOk result (λ paths. levels_made problem.now table.now vars
        (F.formulas formulas.now table.now)
        targets.now ≡ record { list = clauses.new; answer = paths.paths }) }
    ensures targets { IfOk result (λ paths. paths.targets
        ≡ places_of (table_names table.now) targets.now) }
    ensures paths { IfOk result (λ paths. PathsBelow clauses.new.vars (path_words table.now paths)) }
    ensures more { IfOk result (λ paths. vars ≤ clauses.new.vars) }
{
    add_vars(clauses, vars)?;
    let structure = formulas.structure(alloc, table)?;
    assert_each(alloc, clauses, structure.as_slice())?;
    let edges = define_edges(alloc, clauses, table)?;
    let lits = edges.as_slice();
    add_levels(alloc, clauses, problem, table, lits, targets)
}

//! Conditions, rules and demands.
ghost use Rattle.std.specs.Prelude.{◌≡◌, ℕ, ◌≤◌, map, IfOk, OnOk};
ghost use Rattle.clause_formulas.specs.Statements.{SaidBelow};
ghost use Rattle.clause_formulas.specs.Drafts.{statement_at};
ghost use Rattle.clause_formulas.specs.Gated.{bare, gated, GatesBelow};
ghost use Rattle.clause_formulas.specs.Built.{define_all_in, demand_in, demand_all_in};
ghost use Rattle.problem.specs.Demands.{demands};
ghost use Rattle.problem.specs.declared.demand.Demand.{Demand};
ghost use Rattle.graph_encoding.specs.Formulas.{PathsBelow};
ghost use Rattle.graph_encoding.specs.Encodings.{rules_on};
ghost use Rattle.graph_encoding.specs.Ranges.{AreInRange, path_words};

use crate::formulas::RuleFormulas;
use clause_formulas::{Defined, Gates, assert_in, define_all_in, demand_in};
use clause_store::{ClauseList, Label};
use graph_levels::PathLits;
use literal_table::LiteralTable;
use problem::{Demand, Problem};
use std::alloc::{AllocError, Global};

/// Defines the conditions, and asks for the rules and demands, over one table of gates. What is
/// defined for each condition is given back.
pub(crate) fn add_rules<F: RuleFormulas>(
    alloc: Global,
    clauses: &mut ClauseList,
    problem: &Problem,
    table: &LiteralTable,
    formulas: &F,
    paths: &PathLits,
) -> Result<Vec<Defined>, AllocError>
    requires range { (n : ℕ) × AreInRange table.now n (F.formulas formulas.now table.now)
        × (n ≤ clauses.old.vars) }
    requires paths { PathsBelow clauses.old.vars (path_words table.now paths.now) }
    ensures built { OnOk result (rules_on problem.now (F.formulas formulas.now table.now)
        (path_words table.now paths.now) clauses.old ≡ clauses.new) }
    ensures values { IfOk result (λ values. values.items ≡ (define_all_in (bare clauses.old)
        ((F.formulas formulas.now table.now).conditions (path_words table.now paths.now))).answer) }
{
    let conditions = formulas.conditions(alloc, table, paths)?;
    let mut gates = Gates::new(alloc);
    let values = define_all_in(alloc, clauses, &mut gates, conditions.as_slice())?;
    let rules = formulas.rules(alloc, table, paths, values.as_slice())?;
    assert_in(alloc, clauses, &mut gates, &rules, Label::Structure)?;
    add_demands(
        alloc,
        clauses,
        &mut gates,
        problem,
        table,
        formulas,
        paths,
        values.as_slice(),
    )?;
    Ok(values)
}

// Asks for each demand, one by one.
fn add_demands<F: RuleFormulas>(
    alloc: Global,
    clauses: &mut ClauseList,
    gates: &mut Gates,
    problem: &Problem,
    table: &LiteralTable,
    formulas: &F,
    paths: &PathLits,
    values: &[Defined],
) -> Result<(), AllocError>
    requires gates { GatesBelow clauses.old.vars gates.old }
    requires demands { (d : Demand) → SaidBelow clauses.old.vars
        ((F.formulas formulas.now table.now).demand (path_words table.now paths.now)
        (statement_at values.now) d) }
    ensures { OnOk result (demand_all_in (gated clauses.old gates.old) 0
        (map ((F.formulas formulas.now table.now).demand (path_words table.now paths.now)
        (statement_at values.now)) (demands problem.now)) ≡ gated clauses.new gates.new) }
{
    for id in 0..problem.demands() {
        match problem.demand(id) {
            Some(asked) => add_demand(
                alloc, clauses, gates, table, formulas, paths, values, asked, id,
            )?,
            None => {}
        }
    }
    Ok(())
}

fn add_demand<F: RuleFormulas>(
    alloc: Global,
    clauses: &mut ClauseList,
    gates: &mut Gates,
    table: &LiteralTable,
    formulas: &F,
    paths: &PathLits,
    values: &[Defined],
    asked: &Demand,
    id: u64,
) -> Result<(), AllocError>
    requires gates { GatesBelow clauses.old.vars gates.old }
    requires demand { SaidBelow clauses.old.vars ((F.formulas formulas.now table.now).demand
        (path_words table.now paths.now) (statement_at values.now) asked.now) }
    ensures built { OnOk result (demand_in (gated clauses.old gates.old)
        ((F.formulas formulas.now table.now).demand (path_words table.now paths.now)
        (statement_at values.now) asked.now) id ≡ gated clauses.new gates.new) }
    ensures more { OnOk result (clauses.old.vars ≤ clauses.new.vars) }
    ensures below { OnOk result (GatesBelow clauses.new.vars gates.new) }
{
    let formula = formulas.demand(alloc, table, paths, values, asked)?;
    demand_in(alloc, clauses, gates, &formula, id)
}

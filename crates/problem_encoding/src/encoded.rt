//! The clauses of a problem and their bits.
ghost use Rattle.std.specs.Prelude.{◌≡◌, ◌≤◌, true, length, IfOk};
ghost use Rattle.possible_closure.specs.Closures.{closure_of};
ghost use Rattle.ranked_costs.specs.OfTablePlan.Kept.{has_right_values};
ghost use Rattle.ranked_costs.specs.OfValidModels.Tables.{table_for, size_for};
ghost use Rattle.problem.specs.Limits.{is_within_limits, most_names};
ghost use Rattle.ranked_costs.specs.Built.{rank_costs_on};
ghost use Rattle.problem_encoding.specs.Built.{order_in, encoding_of};
ghost use Rattle.problem_encoding.specs.Encodings.{AreCosted, AreRules, IsEncoded, IsRuled, RulesDecode};

use clause_formulas::Defined;
use clause_store::ClauseList;
use criteria_totals::Bits;
use literal_table::LiteralTable;
use plain_data::List;
use possible_closure::{Closure, possible_laws, root_names};
use problem::Problem;
use problem_formulas::{ProblemClauses, ProblemFormulas, targets_of};
use ranked_costs::{closure_laws, costs_laws, order_laws, plan_laws, post_order, rank_costs};
use std::alloc::{AllocError, Global};
use table_building::table_of;

/// Clauses over a table of literals, with the bits that are to be least.
#[derive(Drop)]
pub struct Encoded {
    pub clauses: ClauseList,
    /// The bits of the 31 numbers, one number behind the other, the first bit counting most; and
    /// the greatest value of each number.
    pub bits: Bits,
    pub table: LiteralTable,
}

/// The clauses of the rules over a table of literals.
#[derive(Drop)]
pub struct Rules {
    pub clauses: ClauseList,
    pub table: LiteralTable,
    /// What is defined for each condition, by its place.
    pub values: List<Defined>,
}

/// The clauses of the rules over the names that nodes may have: they alone say whether there is a
/// graph.
///
/// Externals and records have values for their variants, as all that are read do.
///
/// An error is want of memory.
pub fn encode_rules(
    alloc: Global,
    problem: &Problem,
    closure: &Closure,
) -> Result<Rules, AllocError>
    requires closure { closure.now ≡ closure_of problem.now }
    requires values { has_right_values problem.now ≡ true }
    ensures ruled { IfOk result (AreRules problem.now) }
    ensures decodes { IfOk result (λ rules. RulesDecode problem.now) }
{
    let mut vars = 0;
    let table = table_of(alloc, problem, closure, &mut vars)?;
    let ProblemClauses { list, values } = ruled(alloc, problem, closure, &table, vars)?;
    Ok(Rules {
        clauses: list,
        table,
        values,
    })
}

/// The clauses of a problem over the names that its nodes may have: one encoding for each problem,
/// that of the rules in front.
///
/// Externals and records have values for their variants, as all that are read do. The problem is
/// within the limits, and its closure has at most `most_names` names: so the weights of each number
/// add up to less than 2^63.
///
/// An error is want of memory.
pub fn encode(alloc: Global, problem: &Problem, closure: &Closure) -> Result<Encoded, AllocError>
    requires closure { closure.now ≡ closure_of problem.now }
    requires few { length (closure_of problem.now) ≤ most_names }
    requires values { has_right_values problem.now ≡ true }
    requires limits { is_within_limits problem.now ≡ true }
    ensures encoded { IfOk result (IsEncoded problem.now) }
    ensures built { IfOk result (λ encoded. encoded ≡ encoding_of problem.now) }
{
    let rules = encode_rules(alloc, problem, closure)?;
    with_costs(alloc, problem, rules)
}

/// The clauses of the rules over a table.
fn ruled(
    alloc: Global,
    problem: &Problem,
    _closure: &Closure,
    table: &LiteralTable,
    vars: u64,
) -> Result<ProblemClauses, AllocError>
    requires closure { _closure.now ≡ closure_of problem.now }
    requires values { has_right_values problem.now ≡ true }
    requires table { table.now ≡ table_for problem.now _closure.now }
    requires size { vars ≡ size_for problem.now _closure.now }
    ensures ruled { IfOk result (IsRuled problem.now table.now) }
    ensures decodes { IfOk result (λ made. RulesDecode problem.now) }
{
    possible_laws();
    plan_laws();
    closure_laws();
    let _assembled = problem.recipes();
    let targets = targets_of(alloc, problem, table)?;
    let formulas = ProblemFormulas { problem };
    problem_formulas::encode(alloc, problem, table, vars, &formulas, targets.values())
}

/// Adds the bits of the costs behind the clauses: names come children before parents.
fn add_costs(
    alloc: Global,
    clauses: &mut ClauseList,
    problem: &Problem,
    table: &LiteralTable,
    values: &[Defined],
) -> Result<Bits, AllocError>
    requires ruled { IsRuled problem.now table.now
        (record { list = clauses.old; values = values.now }) }
    requires few { length (closure_of problem.now) ≤ most_names }
    requires limits { is_within_limits problem.now ≡ true }
    ensures costed { IfOk result (AreCosted problem.now table.now clauses.new) }
    ensures built { IfOk result (λ bits. rank_costs_on clauses.old problem.now table.now values.now
        (order_in problem.now table.now) ≡ record { list = clauses.new; answer = bits }) }
{
    closure_laws();
    costs_laws();
    order_laws();
    let roots = root_names(alloc, problem.roots())?;
    let order = post_order(alloc, table, roots.as_slice())?;
    rank_costs(alloc, clauses, problem, table, values, order.as_slice())
}

/// The clauses of the rules with the bits of the costs behind them. What is asked of the problem is
/// what `encode` asks.
pub fn with_costs(alloc: Global, problem: &Problem, rules: Rules) -> Result<Encoded, AllocError>
    requires ruled { AreRules problem.now rules }
    requires few { length (closure_of problem.now) ≤ most_names }
    requires limits { is_within_limits problem.now ≡ true }
    ensures encoded { IfOk result (IsEncoded problem.now) }
    ensures built { IfOk result (λ encoded. encoded ≡ encoding_of problem.now) }
{
    let Rules {
        clauses,
        table,
        values,
    } = rules;
    let mut clauses = clauses;
    let bits = add_costs(alloc, &mut clauses, problem, &table, values.as_slice())?;
    Ok(Encoded {
        clauses,
        bits,
        table,
    })
}

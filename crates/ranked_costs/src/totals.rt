//! The totals of the costs.
ghost use Rattle.std.specs.Prelude.{◌≡◌, true, IfOk};
ghost use Rattle.clause_formulas.specs.Drafts.{statement_at};
ghost use Rattle.clause_circuits.specs.Growth.{Extends};
ghost use Rattle.cost_terms.specs.Ranges.{IsTableBelow};
ghost use Rattle.ranked_costs.specs.CostBits.{AreCostBits};
ghost use Rattle.graph_encoding.specs.Formulas.{MetBelow};
ghost use Rattle.term_builder.specs.Held.{held_in};
ghost use Rattle.ranked_costs.specs.Given.{held_for};
ghost use Rattle.ranked_costs.specs.Small.{are_small};
ghost use Rattle.ranked_costs.specs.Built.{terms_for, rank_costs_on};

use crate::held::held_for;
use clause_formulas::Defined;
use clause_store::ClauseList;
use cost_terms::define_totals;
use criteria_totals::Bits;
use literal_table::LiteralTable;
use plain_data::Word;
use problem::Problem;
use std::alloc::{AllocError, Global};
use term_builder::cost_terms;

/// Bits of the 31 numbers of the cost vector, the first to compare first, behind the clauses.
///
/// `values` are those of the conditions of all directives of the table's packages, name by name,
/// and `order` has the names of the table in any order. The weights of each number add up to less
/// than 2^63, as those of each problem within the limits do (`costs_laws`).
pub fn rank_costs(
    alloc: Global,
    clauses: &mut ClauseList,
    problem: &Problem,
    table: &LiteralTable,
    values: &[Defined],
    order: &[Word],
) -> Result<Bits, AllocError>
    requires table { IsTableBelow clauses.old.vars table.now }
    requires values { MetBelow clauses.old.vars (statement_at values.now) }
    requires small { are_small (terms_for problem.now table.now values.now order.now) ≡ true }
    ensures built { IfOk result (λ bits. rank_costs_on clauses.old problem.now table.now values.now order.now
        ≡ record { list = clauses.new; answer = bits }) }
    ensures bits { IfOk result (λ bits. AreCostBits clauses.old clauses.new bits.lits bits.tops
        problem.now table.now (held_in (held_for problem.now table.now values.now)) order.now) }
    ensures extends { Extends clauses.old clauses.new }
{
    let held = held_for(alloc, problem, table, values)?;
    let lists = cost_terms(alloc, problem, table, held.as_slice(), order)?;
    define_totals(alloc, clauses, lists.as_slice())
}

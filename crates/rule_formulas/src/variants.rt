//! Formulas of the variants of a node to build.
ghost use Rattle.std.specs.Prelude.{◌≡◌, ◌++◌, ◌∷◌, [], map, IfOk, OnOk};
ghost use Rattle.clause_formulas.specs.Statements.{any_statement, both_statements, opposite};
ghost use Rattle.graph_formulas.specs.Variants.{variant_rule, variants_rule};
ghost use Rattle.graph_formulas.specs.Laws.{variants_of};
ghost use Rattle.rule_formulas.specs.Terms.{plain_term};
ghost use Rattle.rule_formulas.specs.SaysVariants.{met_by_some, governs_by, each_governs, last_by};

use crate::definitions::PackageDefinitions;
use clause_formulas::Formula;
use clause_store::Lit;
use literal_table::LiteralTable;
use plain_data::{List, Word};
use problem::Problem;
use recipe_data::VariantRow;
use std::alloc::{AllocError, Global};
use word_formulas::{MetConditions, Scribe, each, some};

/// How many definitions are kept apart one by one.
const SHORT: usize = 8;

/// A variant of the node of a name, and what gives conditions their formulas.
#[derive(Drop)]
struct VariantBuilder<'a, C> {
    scribe: Scribe<'a>,
    conditions: &'a C,
    name: &'a str,
    variant: &'a str,
}

impl<'a, C: MetConditions> VariantBuilder<'a, C> {
    /// The condition of some of these definitions is met.
    fn met_formula(&self, rows: &[&VariantRow]) -> Result<Formula, AllocError>
        ensures { IfOk result (λ formula. formula
            ≡ met_by_some C.condition_of self.now rows.now) }
    {
        some(
            self.scribe.alloc,
            rows,
            |row| self.conditions.met(self.scribe.alloc, self.name, &row.when),
        )
    }

    /// The condition is met, and none of the later definitions; and the definition allows the
    /// values.
    fn governs_formula(&self, row: &VariantRow, rest: &[&VariantRow]) -> Result<Formula, AllocError>
        ensures { IfOk result (λ formula. formula
            ≡ governs_by C.condition_of self.now row.now rest.now) }
    {
        let later = self.met_formula(rest)?;
        let met = self
            .conditions
            .met(self.scribe.alloc, self.name, &row.when)?;
        let last = Formula::both(self.scribe.alloc, later.negated(), met)?;
        let allowed = self.scribe.allows_formula(self.name, self.variant, row)?;
        Formula::both(self.scribe.alloc, last, allowed)
    }

    /// Of each of these definitions: it governs, and allows the values.
    fn push_last(&self, parts: &mut Vec<Formula>, rows: &[&VariantRow]) -> Result<(), AllocError>
        ensures { OnOk result (parts.new.items ≡ parts.old.items
            ++ each_governs C.condition_of self.now rows.now) }
    {
        for (i, row) in rows.iter().enumerate() {
            let governs = self.governs_formula(row, &rows[i + 1..])?;
            parts.push(governs)?;
        }
        Ok(())
    }

    /// Some definition of a short list governs, and allows the values.
    fn last_in_turn(&self, rows: &[&VariantRow]) -> Result<Formula, AllocError>
        ensures { IfOk result (λ formula. formula
            ≡ any_statement (each_governs C.condition_of self.now rows.now)) }
    {
        let mut parts = Vec::new(self.scribe.alloc);
        self.push_last(&mut parts, rows)?;
        Ok(Formula::any(parts))
    }

    /// The front's formula is true, and the condition of none of the back is met; or the back's is
    /// true.
    fn join_halves(
        &self,
        rows: &[&VariantRow],
        front: Formula,
        back: Formula,
    ) -> Result<Formula, AllocError>
        ensures { IfOk result (λ formula. formula ≡ any_statement (both_statements
            (opposite (met_by_some C.condition_of self.now rows.now)) front ∷ back ∷ [])) }
    {
        let later = self.met_formula(rows)?;
        let mut parts = Vec::new(self.scribe.alloc);
        parts.push(Formula::both(self.scribe.alloc, later.negated(), front)?)?;
        parts.push(back)?;
        Ok(Formula::any(parts))
    }

    /// Some definition governs, and allows the values. A long list is halved, and none of the
    /// back's conditions is met where one of the front governs: so n definitions take some n log n
    /// literals. It calls itself for each half, so as deep as the logarithm of the list's length.
    fn last_formula(&self, rows: &[&VariantRow], times: usize) -> Result<Formula, AllocError>
        ensures { IfOk result (λ formula. formula
            ≡ last_by C.condition_of self.now times rows.now) }
    {
        if times == 0 {
            return self.last_in_turn(rows);
        }
        if rows.len() <= SHORT {
            return self.last_in_turn(rows);
        }
        let (first, second) = rows.split_at(rows.len() / 2);
        let front = self.last_formula(first, times - 1)?;
        let back = self.last_formula(second, times - 1)?;
        self.join_halves(second, front, back)
    }
}

/// The variant is there just where it has a governing definition, which allows its values.
fn variant_formula<C: MetConditions>(
    alloc: Global,
    definitions: &PackageDefinitions,
    table: &LiteralTable,
    conditions: &C,
    variant: &str,
) -> Result<Formula, AllocError>
    ensures { IfOk result (λ formula. formula ≡ plain_term table.now (C.condition_of conditions.now)
        (variant_rule definitions.now.0 definitions.now.1 variant.now)) }
{
    let name = definitions.name();
    let found = definitions.of(alloc, variant)?;
    let rows = found.as_slice();
    let scribe = Scribe { alloc, table };
    let builder = VariantBuilder {
        scribe,
        conditions,
        name,
        variant,
    };
    let met = builder.met_formula(rows)?;
    let there = scribe.has_variant(name, variant)?;
    let where_met = Formula::implies(alloc, met, there)?;
    let again = scribe.has_variant(name, variant)?;
    let last = builder.last_formula(rows, rows.len() / SHORT)?;
    let where_there = Formula::implies(alloc, again, last)?;
    Formula::both(alloc, where_met, where_there)
}

fn all_variants<C: MetConditions>(
    alloc: Global,
    problem: &Problem,
    table: &LiteralTable,
    conditions: &C,
    name: &str,
    variants: &[(Word, List<(Word, Lit)>)],
) -> Result<Formula, AllocError>
    ensures { IfOk result (λ formula. formula ≡ plain_term table.now (C.condition_of conditions.now)
        (variants_rule problem.now (map (λ v. v.0) variants.now) name.now)) }
{
    let definitions = PackageDefinitions::new(alloc, problem, name)?;
    each(alloc, variants, |v| {
        variant_formula(alloc, &definitions, table, conditions, v.0.as_str())
    })
}

/// The variants of the node are right.
pub fn variants_formula<C: MetConditions>(
    alloc: Global,
    problem: &Problem,
    table: &LiteralTable,
    conditions: &C,
    name: &str,
) -> Result<Formula, AllocError>
    ensures { IfOk result (λ formula. formula ≡ plain_term table.now (C.condition_of conditions.now)
        (variants_rule problem.now (variants_of table.now name.now) name.now)) }
{
    match table.block(name) {
        Some(block) => {
            all_variants(
                alloc,
                problem,
                table,
                conditions,
                name,
                block.variants.as_slice(),
            )
        }
        None => all_variants(alloc, problem, table, conditions, name, &[]),
    }
}

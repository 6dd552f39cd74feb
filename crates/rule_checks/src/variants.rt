//! The variants of a node to build.
ghost use Rattle.std.specs.Prelude.{◌≡◌, IfOk, map, filter};
ghost use Rattle.std.specs.List.{list_all};
ghost use Rattle.std.specs.Str.{bytes_eq};
ghost use Rattle.std.specs.Cmp.Lexicographic.{pointwise};
ghost use Rattle.condition_rules.specs.Words.{includes, is_some_and};
ghost use Rattle.condition_rules.specs.Holds.{governing};
ghost use Rattle.recipe_data.specs.Right.{is_count_of};
ghost use Rattle.problem.specs.Problems.{applies};
ghost use Rattle.graph_rules.specs.Built.{governed, allows, is_allowed, has_governed};
ghost use Rattle.graph_rules.specs.Built.{keeps_variant};
ghost use Rattle.rule_checks.specs.Checked.{at};

use crate::checks::Checks;
use condition_rules::{Definitions, governing};
use graph_core::Node;
use plain_data::{Duplicate, Word};
use problem::{applies, names_of, variants_at};
use recipe_data::VariantRow;
use std::alloc::AllocError;
use variant_values::{ValueSet, VariantKind};

pub(crate) fn same_names(a: &[Word], b: &[Word]) -> bool
    ensures { result ≡ pointwise bytes_eq a.now b.now }
{
    a == b
}

fn is_count_of(kind: VariantKind, count: u64) -> bool
    ensures { result ≡ is_count_of kind count }
{
    match kind {
        VariantKind::Bool | VariantKind::Single => count == 1,
        VariantKind::Multi => count > 0,
    }
}

fn includes(values: &ValueSet, wanted: &ValueSet) -> bool
    ensures { result ≡ includes values.now wanted.now }
{
    values.contains_all(wanted)
}

fn allows(values: &ValueSet, row: &VariantRow) -> bool
    ensures { result ≡ allows values.now row.now }
{
    includes(&row.values, values) && is_count_of(row.kind, values.len())
}

impl<'a> Checks<'a> {
    /// The names of the variants whose rows apply at a node.
    fn governed_names(&self, node: &Node, rows: &[VariantRow]) -> Result<Vec<Word>, AllocError>
        ensures { IfOk result (λ names. names.items ≡ map (λ row. row.name)
            (filter (λ row. at applies self.now row.when node.now) rows.now)) }
    {
        let mut names = Vec::new(self.alloc());
        for row in rows {
            if applies(self.alloc(), self.problem(), self.graph(), &row.when, node)? {
                names.push(row.name.duplicate(self.alloc())?)?;
            }
        }
        Ok(names)
    }

    /// The variants with a governing definition, in byte order.
    fn governed(&self, node: &Node) -> Result<ValueSet, AllocError>
        ensures { IfOk result (λ names. names ≡ at governed self.now node.now) }
    {
        let rows = variants_at(self.problem(), node.name.as_str());
        let names = self.governed_names(node, rows)?;
        Ok(ValueSet::from_words(names))
    }

    fn has_governed(&self, node: &Node) -> Result<bool, AllocError>
        ensures { IfOk result (λ answer. answer ≡ at has_governed self.now node.now) }
    {
        let wanted = self.governed(node)?;
        let names = names_of(self.alloc(), node.variants.as_slice())?;
        Ok(same_names(names.as_slice(), wanted.values()))
    }

    /// Whether the definition that governs a variant allows its values.
    fn is_allowed(
        &self,
        definitions: &Definitions,
        variant: &(Word, ValueSet),
    ) -> Result<bool, AllocError>
        ensures { IfOk result (λ answer. answer ≡ is_some_and
            (governing definitions.now.0 self.now.graph definitions.now.1 variant.now.0)
            (allows variant.now.1)) }
    {
        match governing(self.alloc(), definitions, self.graph(), variant.0.as_str())? {
            Some(row) => Ok(allows(&variant.1, row)),
            None => Ok(false),
        }
    }

    /// Whether each variant has values that the row that governs it allows.
    ///
    /// Takes n log n comparisons for n definitions and variants.
    fn all_allowed(&self, node: &Node, variants: &[(Word, ValueSet)]) -> Result<bool, AllocError>
        ensures { IfOk result (λ answer. answer ≡ list_all (at is_allowed self.now node.now)
            variants.now) }
    {
        let definitions = Definitions::new(
            self.alloc(),
            self.problem().world(),
            node.name.as_str(),
        )?;
        for variant in variants {
            if !self.is_allowed(&definitions, variant)? {
                return Ok(false);
            }
        }
        Ok(true)
    }

    /// Its variants are exactly those with a governing definition, which allows their values.
    #[tactic(auto, unfolding(graph_rules::specs::Built::keeps_variant))]
    pub fn keeps_variant(&self, node: &Node) -> Result<bool, AllocError>
        ensures { IfOk result (λ answer. answer ≡ at keeps_variant self.now node.now) }
    {
        if !self.has_governed(node)? {
            return Ok(false);
        }
        let allowed = self.all_allowed(node, node.variants.as_slice())?;
        Ok(allowed)
    }
}

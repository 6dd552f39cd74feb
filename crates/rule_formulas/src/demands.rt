//! The formula of a demand.
ghost use Rattle.std.specs.Prelude.{◌≡◌, IfOk, slice_get};
ghost use Rattle.std.specs.Option.{option_copied};
ghost use Rattle.graph_formulas.specs.Words.{names_for};
ghost use Rattle.graph_formulas.specs.Lists.{where_written};
ghost use Rattle.graph_formulas.specs.Directives.{root_rule, requirement_rule};
ghost use Rattle.problem.specs.Problems.{required_at};
ghost use Rattle.problem.specs.declared.demand.Demand.TheVariants as demands;
ghost use Rattle.graph_formulas.specs.Demands.{directive_rule, required_rule, demand_rule};
ghost use Rattle.graph_formulas.specs.Laws.{has_name, term_formula};
ghost use Rattle.graph_formulas.specs.Terms.{where_built, where_there};
ghost use Rattle.rule_formulas.specs.Paths.{path_by};
ghost use Rattle.rule_formulas.specs.Says.{says_by, says_demand, says_words};

use crate::demand_builder::DemandBuilder;
use clause_formulas::Formula;
use graph_levels::PathLits;
use literal_table::LiteralTable;
use problem::{Demand, Problem, required_at};
use recipe_data::RequireRow;
use spec_grammar::Spec;
use std::alloc::{AllocError, Global};
use word_formulas::{MetConditions, Scribe};

/// The root at this place.
fn root_at(problem: &Problem, place: u64) -> Option<&Spec>
    ensures { option_copied result ≡ slice_get problem.now.roots place }
{
    problem.roots().get(place as usize)
}

/// A node may have the name.
fn has_name(table: &LiteralTable, name: &str) -> bool
    ensures { result ≡ has_name table.now name.now }
{
    match table.block(name) {
        Some(_) => true,
        None => false,
    }
}

/// What the settings ask of a package at this place.
fn row_at<'a>(problem: &'a Problem, name: &str, place: u64) -> Option<&'a RequireRow>
    ensures { option_copied result ≡ slice_get (required_at problem.now name.now) place }
{
    required_at(problem, name).get(place as usize)
}

impl<'a, C: MetConditions> DemandBuilder<'a, C> {
    /// The spec holds at the node of its name.
    fn spec_formula(&self, spec: &Spec) -> Result<Formula, AllocError>
        ensures { IfOk result (says_words self.now
            (λ problem names. root_rule problem names spec.now)) }
    {
        let world = self.problem.world();
        match &spec.top.name {
            Some(name) => self.specs(&world).holds_formula(name.as_str(), spec),
            None => Ok(self.scribe.given(false)),
        }
    }

    /// The root at this place holds, where there is one.
    fn root_formula(&self, place: u64) -> Result<Formula, AllocError>
        ensures { IfOk result (says_words self.now (λ problem names.
            where_written (slice_get problem.roots place) (root_rule problem names))) }
    {
        match root_at(self.problem, place) {
            Some(spec) => self.spec_formula(spec),
            None => Ok(self.scribe.given(true)),
        }
    }

    /// Where the node of the name is to be built, it keeps the directives with this number.
    fn built_formula(&self, name: &str, number: u64) -> Result<Formula, AllocError>
        ensures { IfOk result (says_by C.condition_of self.now (λ problem names.
            where_built name.now (directive_rule problem names number name.now))) }
    {
        let rule = self.directive_formula(name, number)?;
        self.scribe.where_built(name, rule)
    }

    /// The directives with this number are kept. Of a name that no node can have nothing is said,
    /// and nothing is built.
    fn directives_formula(&self, name: &str, number: u64) -> Result<Formula, AllocError>
        ensures { IfOk result (says_demand C.condition_of self.now
            (demands.Directive name.now number)) }
    {
        if has_name(self.scribe.table, name) {
            self.built_formula(name, number)
        } else {
            Ok(self.scribe.given(true))
        }
    }

    /// What the settings ask at this place is met, where they do.
    fn required_formula(&self, name: &str, place: u64) -> Result<Formula, AllocError>
        ensures { IfOk result (says_by C.condition_of self.now (λ problem names.
            where_written (slice_get (required_at problem name.now) place)
            (requirement_rule problem names name.now))) }
    {
        match row_at(self.problem, name, place) {
            Some(row) => self.requirement_formula(name, row),
            None => Ok(self.scribe.given(true)),
        }
    }

    /// Where the node of the name is there, it keeps the requirement of the settings at this place.
    fn there_formula(&self, name: &str, place: u64) -> Result<Formula, AllocError>
        ensures { IfOk result (says_by C.condition_of self.now (λ problem names.
            where_there name.now (required_rule problem names place name.now))) }
    {
        let rule = self.required_formula(name, place)?;
        self.scribe.where_there(name, rule)
    }

    /// The requirement of the settings at this place is kept. Of a name that no node can have
    /// nothing is said, and nothing is built.
    fn setting_formula(&self, name: &str, place: u64) -> Result<Formula, AllocError>
        ensures { IfOk result (says_demand C.condition_of self.now
            (demands.Setting name.now place)) }
    {
        if has_name(self.scribe.table, name) {
            self.there_formula(name, place)
        } else {
            Ok(self.scribe.given(true))
        }
    }
}

/// The demand is kept.
pub fn demand_formula<C: MetConditions>(
    alloc: Global,
    problem: &Problem,
    table: &LiteralTable,
    paths: &PathLits,
    conditions: &C,
    demand: &Demand,
) -> Result<Formula, AllocError>
    ensures { IfOk result (λ formula. formula
        ≡ term_formula (path_by table.now paths.now) (C.condition_of conditions.now) table.now
        (demand_rule problem.now (names_for table.now) (has_name table.now) demand.now)) }
{
    let builder = DemandBuilder {
        scribe: Scribe { alloc, table },
        problem,
        paths,
        conditions,
    };
    match demand {
        Demand::Root(place) => builder.root_formula(*place),
        Demand::Directive { package, number } => {
            builder.directives_formula(package.as_str(), *number)
        }
        Demand::Setting { package, number } => builder.setting_formula(package.as_str(), *number),
    }
}

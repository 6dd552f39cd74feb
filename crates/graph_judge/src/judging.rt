//! The judge of a graph.
ghost use Rattle.std.specs.Prelude.{◌≡◌, ◌&&◌};
ghost use Rattle.std.specs.Option.{option_copied};
ghost use Rattle.problem.specs.Nodes.{is_built};
ghost use Rattle.problem.specs.declared.demand.Demand.TheVariants.{Directive, Setting};
ghost use Rattle.graph_judge.specs.Asked.{demand_of};
ghost use Rattle.graph_judge.specs.Judging.{asked};

use crate::asked::{NamedDemand, is_among};
use condition_rules::Paths;
use graph_core::Node;
use plain_data::Word;
use problem::{Explored, Problem, is_built};
use rule_checks::Checks;
use std::alloc::Global;
use std::marker::Model;

/// Judges a graph by the rules of a problem. Of roots, directives and requirements of the settings
/// only those of some numbers are asked, or all.
#[derive(Drop)]
pub(crate) struct Judge<'a> {
    pub(crate) checks: Checks<'a>,
    ids: Option<&'a [u64]>,
}

impl<'a> Model for Judge<'a> {
    ghost use Rattle.std.specs.Option.{option_copied};
    ghost use Rattle.graph_judge.specs.Judging.{Judging};

    ghost Value = { Judging };

    ghost view = { λ j. record {
      ids = option_copied j.ids;
      problem = j.checks.problem;
      graph = j.checks.graph;
    } };
}

impl<'a> Judge<'a> {
    pub(crate) fn new(
        alloc: Global,
        problem: &'a Problem,
        graph: &'a Explored<'a>,
        ids: Option<&'a [u64]>,
    ) -> Judge<'a>
        ensures { result ≡ record {
          ids = option_copied ids.entry;
          problem = problem.now;
          graph = graph.now;
        } }
    {
        let checks = Checks::new(alloc, problem, graph);
        Judge { checks, ids }
    }

    pub(crate) fn alloc(&self) -> Global {
        self.checks.alloc()
    }

    pub(crate) fn problem(&self) -> &'a Problem
        ensures { result.now ≡ self.now.problem }
    {
        self.checks.problem()
    }

    pub(crate) fn nodes(&self) -> &'a [Node]
        ensures { result.now ≡ self.now.graph.nodes }
    {
        self.checks.graph().graph().nodes()
    }

    pub(crate) fn providers(&self) -> &'a [(Word, Word)]
        ensures { result.now ≡ self.now.graph.providers }
    {
        self.checks.graph().graph().providers()
    }

    pub(crate) fn asks(&self, demand: NamedDemand) -> bool
        ensures { result ≡ asked self.now (demand_of demand.entry) }
    {
        match self.ids {
            Some(ids) => is_among(self.problem(), ids, &demand),
            None => true,
        }
    }

    /// Whether the directive of this number is to be kept at a node.
    pub(crate) fn asks_directive(&self, node: &Node, number: u64) -> bool
        ensures { result ≡ (is_built node.now && asked self.now (Directive node.now.name number)) }
    {
        is_built(node) && self.asks(NamedDemand::Directive(node.name.as_str(), number))
    }

    /// Whether the requirement of this place in the settings is to be kept at a node.
    pub(crate) fn asks_setting(&self, node: &Node, place: u64) -> bool
        ensures { result ≡ asked self.now (Setting node.now.name place) }
    {
        self.asks(NamedDemand::Setting(node.name.as_str(), place))
    }
}

//! The first broken rule.
ghost use Rattle.std.specs.Prelude.{◌≡◌, ◌↔◌, true, IfOk, filter_map, slice_get};
ghost use Rattle.std.specs.Option.{option_copied};
ghost use Rattle.problem.specs.Demands.{demands};
ghost use Rattle.graph_rules.specs.Valid.{valid, valid_for};
ghost use Rattle.graph_rules.specs.Verdict.{first_broken, least, verdict, verdict_of, verdict_for};
ghost use Rattle.graph_rules.specs.declared.rule.Verdict.{Verdict};
ghost use Rattle.graph_judge.specs.Judging.{asked, asked_of};
ghost use Rattle.graph_judge.specs.Places.{breaks, found_of};

use crate::judging::Judge;
use crate::nodes::NodeRule;
use crate::others::ProviderRule;
use crate::places::least_of;
use crate::rows::{ConflictRule, DependRule, RequireRule};
use graph_core::Graph;
use graph_rules::{Rule, Verdict};
use plain_data::{Duplicate, Word};
use problem::{Explored, Problem};
use std::alloc::{AllocError, Global};

// The rules, in the order in which a broken one is named.
const RULES: [Rule; 18] = [
    Rule::Root,
    Rule::Buildable,
    Rule::Version,
    Rule::Variant,
    Rule::Compiler,
    Rule::Machine,
    Rule::Edge,
    Rule::ExtraEdge,
    Rule::Constraint,
    Rule::Conflict,
    Rule::Requirement,
    Rule::Required,
    Rule::Kept,
    Rule::Provider,
    Rule::UnusedProvider,
    Rule::Together,
    Rule::Cycle,
    Rule::Unreachable,
];

impl<'a> Judge<'a> {
    /// The places where a rule is broken.
    #[tactic(auto, unfolding(graph_rules::specs::Verdict::breaks_of, crate::specs::Places::keeps_at))]
    fn places_of(&self, rule: Rule) -> Result<Vec<(Word, u64)>, AllocError>
        ensures { IfOk result (λ places. places.items ≡ breaks rule self.now) }
    {
        match rule {
            Rule::Root => self.root_places(self.problem().roots()),
            Rule::Buildable => self.node_places(NodeRule::Buildable),
            Rule::Version => self.node_places(NodeRule::Version),
            Rule::Variant => self.node_places(NodeRule::Variant),
            Rule::Compiler => self.node_places(NodeRule::Compiler),
            Rule::Machine => self.node_places(NodeRule::Machine),
            Rule::Edge => self.row_places(&DependRule::Edge),
            Rule::ExtraEdge => self.node_places(NodeRule::ExtraEdge),
            Rule::Constraint => self.row_places(&DependRule::Constraint),
            Rule::Conflict => self.row_places(&ConflictRule {}),
            Rule::Requirement => self.row_places(&RequireRule::Recipe),
            Rule::Required => self.row_places(&RequireRule::Settings),
            Rule::Kept => self.node_places(NodeRule::Kept),
            Rule::Provider => self.provider_places(ProviderRule::Provider),
            Rule::UnusedProvider => self.provider_places(ProviderRule::UnusedProvider),
            Rule::Together => self.provider_places(ProviderRule::Together),
            Rule::Cycle => self.node_places(NodeRule::Cycle),
            Rule::Unreachable => self.node_places(NodeRule::Unreachable),
        }
    }

    /// The verdict that a rule is broken, at its least place.
    fn broken(&self, rule: Rule) -> Result<Option<Verdict>, AllocError>
        ensures { IfOk result (λ found. found ≡ found_of rule (least (breaks rule self.now))) }
    {
        let places = self.places_of(rule)?;
        match least_of(places.as_slice()) {
            Some(place) => Ok(Some(Verdict::Broken {
                rule,
                node: place.0.duplicate(self.alloc())?,
                directive: place.1,
            })),
            None => Ok(None),
        }
    }

    /// The verdict of the first rule that is broken.
    fn first_broken(&self, rules: &[Rule]) -> Result<Verdict, AllocError>
        ensures { IfOk result (λ said. said
            ≡ first_broken (asked self.now) rules.now self.now.problem self.now.graph) }
    {
        for rule in rules {
            let found = self.broken(*rule)?;
            if let Some(said) = found {
                return Ok(said);
            }
        }
        Ok(Verdict::Valid)
    }
}

#[tactic(auto, unfolding(graph_rules::specs::Verdict::verdict_of))]
fn verdict_of<'a>(
    alloc: Global,
    problem: &'a Problem,
    graph: &'a Graph,
    ids: Option<&'a [u64]>,
) -> Result<Verdict, AllocError>
    ensures { IfOk result (λ said. said
        ≡ verdict_of (asked_of problem.now (option_copied ids.entry)) problem.now graph.now) }
{
    let explored = Explored::new(alloc, graph)?;
    let judge = Judge::new(alloc, problem, &explored, ids);
    judge.first_broken(&RULES)
}

/// The verdict on a graph: Valid exactly where no rule is broken, else the first broken rule, there
/// the least node by bytes, and there the least number.
///
/// Finds all paths once and then goes over the graph once for each rule.
pub fn judge(alloc: Global, problem: &Problem, graph: &Graph) -> Result<Verdict, AllocError>
    ensures first { IfOk result (λ said. said ≡ verdict problem.now graph.now) }
    ensures valid { IfOk result (λ said. (said ≡ Verdict.Valid)
        ↔ (valid problem.now graph.now ≡ true)) }
{
    let said = verdict_of(alloc, problem, graph, None)?;
    Ok(said)
}

/// The same, where of roots, directives and requirements of the settings only those of these
/// demands are asked, by their numbers from 0. A number that is no demand's asks nothing.
pub fn judge_for(
    alloc: Global,
    problem: &Problem,
    graph: &Graph,
    ids: &[u64],
) -> Result<Verdict, AllocError>
    ensures first { let asked = filter_map (slice_get (demands problem.now)) ids.now in
        IfOk result (λ said. said ≡ verdict_for asked problem.now graph.now) }
    ensures valid { let asked = filter_map (slice_get (demands problem.now)) ids.now in
        IfOk result (λ said. (said ≡ Verdict.Valid)
        ↔ (valid_for asked problem.now graph.now ≡ true)) }
{
    let _nodes = graph.nodes();
    let said = verdict_of(alloc, problem, graph, Some(ids))?;
    Ok(said)
}

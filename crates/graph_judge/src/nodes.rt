//! The rules that are said of each node.
ghost use Rattle.std.specs.Prelude.{◌≡◌, ◌++◌, IfOk, OnOk};
ghost use Rattle.graph_rules.specs.Verdict.{broken_nodes};
ghost use Rattle.graph_judge.specs.Places.{keeps_at, nodes_places};

use crate::judging::Judge;
use crate::places::add_unless;
use graph_core::Node;
use plain_data::Word;
use problem::is_built;
use std::alloc::AllocError;

/// The rules that are said of each node.
#[derive(Debug, Clone, Copy, PartialEq, Eq)]
pub(crate) enum NodeRule {
    Buildable,
    Version,
    Variant,
    Compiler,
    Machine,
    ExtraEdge,
    Kept,
    Cycle,
    Unreachable,
}

impl<'a> Judge<'a> {
    /// Whether a node keeps a rule; most rules ask it of built nodes alone.
    #[tactic(auto, unfolding(crate::specs::Places::keeps_at))]
    fn keeps_at(&self, rule: NodeRule, node: &Node) -> Result<bool, AllocError>
        ensures { IfOk result (λ kept. kept ≡ keeps_at rule self.now.problem self.now.graph
            node.now) }
    {
        match rule {
            NodeRule::Buildable => Ok(!is_built(node) || self.checks.keeps_buildable(node)),
            NodeRule::Version => Ok(!is_built(node) || self.checks.keeps_version(node)),
            NodeRule::Variant => Ok(!is_built(node) || self.checks.keeps_variant(node)?),
            NodeRule::Compiler => Ok(!is_built(node) || self.checks.keeps_compiler(node)),
            NodeRule::Machine => Ok(!is_built(node) || self.checks.keeps_machine(node)),
            NodeRule::ExtraEdge => { Ok(!is_built(node) || self.checks.keeps_extra_edge(node)?) }
            NodeRule::Kept => self.checks.keeps_kept(node),
            NodeRule::Cycle => self.checks.keeps_no_cycle(node),
            NodeRule::Unreachable => self.checks.keeps_reachable(node),
        }
    }

    fn add_nodes(
        &self,
        places: &mut Vec<(Word, u64)>,
        rule: NodeRule,
        nodes: &[Node],
    ) -> Result<(), AllocError>
        ensures { OnOk result (places.new.items ≡ places.old.items
            ++ nodes_places (keeps_at rule self.now.problem self.now.graph) nodes.now) }
    {
        for node in nodes {
            let kept = self.keeps_at(rule, node)?;
            add_unless(self.alloc(), places, kept, node.name.as_str(), 0)?;
        }
        Ok(())
    }

    /// The nodes where such a rule is broken.
    pub(crate) fn node_places(&self, rule: NodeRule) -> Result<Vec<(Word, u64)>, AllocError>
        ensures { IfOk result (λ places. places.items
            ≡ broken_nodes (keeps_at rule self.now.problem self.now.graph) self.now.graph) }
    {
        let mut places = Vec::new(self.alloc());
        self.add_nodes(&mut places, rule, self.nodes())?;
        Ok(places)
    }
}

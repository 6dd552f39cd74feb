//! The rules of providers, and of the graph as a whole.
ghost use Rattle.std.specs.Prelude.{◌≡◌, ◌||◌, IfOk, None};
ghost use Rattle.std.specs.List.{list_any, list_all};
ghost use Rattle.std.specs.Str.{bytes_eq};
ghost use Rattle.condition_rules.specs.Words.{implies, is_some_and};
ghost use Rattle.graph_core.specs.Paths.{reaches_in};
ghost use Rattle.problem.specs.Problems.{world_of};
ghost use Rattle.graph_rules.specs.Whole.{keeps_provider, keeps_used, keeps_no_cycle};
ghost use Rattle.graph_rules.specs.Whole.{keeps_reachable, uses, needs};
ghost use Rattle.graph_rules.specs.Whole.{has_no_other, provides_by, provides_together};
ghost use Rattle.graph_rules.specs.Whole.{keeps_row_together, keeps_together};
ghost use Rattle.rule_checks.specs.Checked.{at};

use crate::built::among;
use crate::checks::Checks;
use condition_rules::{Paths, provides, row_provides};
use graph_core::Node;
use plain_data::Word;
use problem::provides_at;
use recipe_data::ProvideRow;
use spec_grammar::Spec;
use std::alloc::AllocError;

impl<'a> Checks<'a> {
    /// A virtual's provider is a node that provides it.
    #[tactic(auto, unfolding(graph_rules::specs::Whole::keeps_provider))]
    pub fn keeps_provider(&self, p: &(Word, Word)) -> bool
        ensures { result ≡ at keeps_provider self.now p.now }
    {
        let world = self.problem().world();
        match self.graph().graph().node(p.1.as_str()) {
            Some(node) => provides(&world, node, p.0.as_str(), None),
            None => false,
        }
    }

    /// Whether a node has an edge to the package that names the virtual.
    fn uses(&self, p: &(Word, Word), node: &Node) -> bool
        ensures { result ≡ uses self.now.graph p.now node.now }
    {
        match self.graph().graph().edge(node.name.as_str(), p.1.as_str()) {
            Some(edge) => among(edge.virtuals.values(), p.0.as_str()),
            None => false,
        }
    }

    /// Some node has an edge to the provider that names the virtual.
    #[tactic(auto, unfolding(graph_rules::specs::Whole::keeps_used))]
    pub fn keeps_used(&self, p: &(Word, Word)) -> bool
        ensures { result ≡ keeps_used self.now.graph p.now }
    {
        self.graph()
            .graph()
            .nodes()
            .iter()
            .any(|node| self.uses(p, node))
    }

    /// Whether a virtual has no provider but this package.
    fn has_no_other(&self, name: &str, virtual_name: &Word) -> bool
        ensures { result ≡ has_no_other self.now.graph name.now virtual_name.now }
    {
        match self.graph().graph().provider_of(virtual_name.as_str()) {
            Some(other) => other == name,
            None => true,
        }
    }

    /// Whether a row's condition holds at the provider, and it provides the virtual.
    fn provides_by(&self, p: &(Word, Word), row: &ProvideRow) -> bool
        ensures { result ≡ at provides_by self.now p.now row.now }
    {
        let world = self.problem().world();
        match self.graph().graph().node(p.1.as_str()) {
            Some(node) => row_provides(&world, node, p.0.as_str(), None, row),
            None => false,
        }
    }

    /// Whether each name of the row's directive has no provider but this package.
    fn provides_together(&self, name: &str, row: &ProvideRow) -> bool
        ensures { result ≡ at provides_together self.now name.now row.now }
    {
        provides_at(self.problem(), name).iter().all(|other| other.number != row.number
            || self.has_no_other(name, &other.name))
    }

    /// Where the virtual is provided by the row, so is each name of its directive that is provided.
    fn keeps_row_together(&self, p: &(Word, Word), row: &ProvideRow) -> bool
        ensures { result ≡ at keeps_row_together self.now p.now row.now }
    {
        !self.provides_by(p, row) || self.provides_together(p.1.as_str(), row)
    }

    /// So it is where the row names the virtual.
    fn keeps_named_row(&self, p: &(Word, Word), row: &ProvideRow) -> bool
        ensures { result ≡ implies (bytes_eq row.now.name p.now.0)
            (at keeps_row_together self.now p.now row.now) }
    {
        row.name.as_str() != p.0.as_str() || self.keeps_row_together(p, row)
    }

    fn keeps_named_rows(&self, p: &(Word, Word), rows: &[ProvideRow]) -> bool
        ensures { result ≡ list_all (λ row. implies (bytes_eq row.name p.now.0)
            (at keeps_row_together self.now p.now row)) rows.now }
    {
        rows.iter().all(|row| self.keeps_named_row(p, row))
    }

    /// Where the settings ask for it, a virtual's provider by a directive is the provider of each
    /// other
    /// name of the directive that has one.
    #[tactic(auto, unfolding(graph_rules::specs::Whole::keeps_together))]
    pub fn keeps_together(&self, p: &(Word, Word)) -> bool
        ensures { result ≡ at keeps_together self.now p.now }
    {
        let is_asked = self.problem().settings().provided_together;
        !is_asked || self.keeps_named_rows(p, provides_at(self.problem(), p.1.as_str()))
    }

    /// No path leads from the node to itself.
    #[tactic(auto, unfolding(graph_rules::specs::Whole::keeps_no_cycle))]
    pub fn keeps_no_cycle(&self, node: &Node) -> Result<bool, AllocError>
        ensures { IfOk result (λ answer. answer ≡ keeps_no_cycle self.now.graph node.now) }
    {
        Ok(
            !self
                .graph()
                .leads(self.alloc(), node.name.as_str(), node.name.as_str())?,
        )
    }

    fn starts(&self, root: &str, name: &str) -> Result<bool, AllocError>
        ensures { IfOk result (λ answer. answer
            ≡ (bytes_eq root.now name.now || reaches_in self.now.graph root.now name.now)) }
    {
        Ok(root == name || self.graph().leads(self.alloc(), root, name)?)
    }

    fn needs(&self, node: &Node, spec: &Spec) -> Result<bool, AllocError>
        ensures { IfOk result (λ answer. answer ≡ needs self.now.graph node.now spec.now) }
    {
        match &spec.top.name {
            Some(root) => self.starts(root.as_str(), node.name.as_str()),
            None => Ok(false),
        }
    }

    /// Whether one of some specs asks for a node or leads to it.
    fn some_needs(&self, node: &Node, specs: &[Spec]) -> Result<bool, AllocError>
        ensures { IfOk result (λ answer. answer ≡ list_any (needs self.now.graph node.now)
            specs.now) }
    {
        for spec in specs {
            if self.needs(node, spec)? {
                return Ok(true);
            }
        }
        Ok(false)
    }

    /// It is a root's node, or ends a path from one.
    #[tactic(auto, unfolding(graph_rules::specs::Whole::keeps_reachable))]
    pub fn keeps_reachable(&self, node: &Node) -> Result<bool, AllocError>
        ensures { IfOk result (λ answer. answer ≡ at keeps_reachable self.now node.now) }
    {
        self.some_needs(node, self.problem().roots())
    }
}

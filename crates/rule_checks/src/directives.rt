//! The rules of roots, and of directives at a node to build.
ghost use Rattle.std.specs.Prelude.{◌≡◌, IfOk, count_by};
ghost use Rattle.std.specs.List.{list_any};
ghost use Rattle.std.specs.Option.{option_copied};
ghost use Rattle.condition_rules.specs.Words.{is_some_and};
ghost use Rattle.graph_core.specs.Graphs.{edge_of};
ghost use Rattle.condition_rules.specs.Words.{if_written, implies, is_one_text};
ghost use Rattle.virtuals.specs.Virtuals.{is_virtual};
ghost use Rattle.condition_rules.specs.Holds.{asked_node, suits, holds};
ghost use Rattle.problem.specs.Problems.{world_of, asked_by};
ghost use Rattle.graph_rules.specs.Directives.{keeps_root, answers, keeps_edge, keeps_constraint};
ghost use Rattle.graph_rules.specs.Directives.{keeps_conflict, keeps_requirement, has_choice};
ghost use Rattle.rule_checks.specs.Checked.{at};

use crate::built::among;
use crate::checks::Checks;
use condition_rules::{Paths, asked_node, holds, suits};
use graph_core::{Edge, Node};
use problem::{applies, asked_by, covers};
use recipe_data::{ConflictRow, DependRow, RequireRow};
use spec_grammar::Spec;
use std::alloc::AllocError;

impl<'a> Checks<'a> {
    /// The spec's name is a node, and the spec holds there.
    #[tactic(auto, unfolding(graph_rules::specs::Directives::keeps_root))]
    pub fn keeps_root(&self, spec: &Spec) -> Result<bool, AllocError>
        ensures { IfOk result (λ answer. answer ≡ at keeps_root self.now spec.now) }
    {
        let world = self.problem().world();
        match &spec.top.name {
            Some(name) => holds(self.alloc(), &world, spec, self.graph(), name.as_str()),
            None => Ok(false),
        }
    }

    fn names(&self, edge: &Edge, name: &str) -> bool
        ensures { result ≡ implies (is_virtual self.now.problem.recipes name.now)
            (is_one_text edge.now.virtuals name.now) }
    {
        let world = self.problem().world();
        !world.is_virtual(name) || among(edge.virtuals.values(), name)
    }

    /// Whether an edge names the virtual that a row asks for, if it asks for one.
    fn names_asked(&self, edge: &Edge, row: &DependRow) -> bool
        ensures { result ≡ if_written row.now.part.name
            (λ name. implies (is_virtual self.now.problem.recipes name)
            (is_one_text edge.now.virtuals name)) }
    {
        match &row.part.name {
            Some(name) => self.names(edge, name.as_str()),
            None => true,
        }
    }

    fn answers(&self, row: &DependRow, edge: &Edge) -> bool
        ensures { result ≡ answers self.now.problem row.now edge.now }
    {
        covers(edge.kinds, row.kinds) && self.names_asked(edge, row)
    }

    fn has_edge(&self, node: &Node, child: &Node, row: &DependRow) -> bool
        ensures { result ≡ is_some_and (edge_of self.now.graph node.now.name child.now.name)
            (answers self.now.problem row.now) }
    {
        match self
            .graph()
            .graph()
            .edge(node.name.as_str(), child.name.as_str())
        {
            Some(edge) => self.answers(row, edge),
            None => false,
        }
    }

    fn has_asked_edge(&self, node: &Node, row: &DependRow) -> bool
        ensures { result ≡ is_some_and (at asked_by self.now row.now)
            (λ child. is_some_and (edge_of self.now.graph node.now.name child.name)
            (answers self.now.problem row.now)) }
    {
        match asked_by(self.problem(), self.graph(), row) {
            Some(child) => self.has_edge(node, child, row),
            None => false,
        }
    }

    /// Where the directive holds, an edge with all its kinds, which names the virtual that it asks
    /// for,
    /// goes to the node that it asks for.
    #[tactic(auto, unfolding(graph_rules::specs::Directives::keeps_edge))]
    pub fn keeps_edge(&self, node: &Node, row: &DependRow) -> Result<bool, AllocError>
        ensures { IfOk result (λ answer. answer ≡ at keeps_edge self.now node.now row.now) }
    {
        if !applies(self.alloc(), self.problem(), self.graph(), &row.when, node)? {
            return Ok(true);
        }
        Ok(self.has_asked_edge(node, row))
    }

    fn is_suited(&self, row: &DependRow, name: &str) -> bool
        ensures { result ≡ is_some_and (asked_node (world_of self.now.problem) self.now.graph
            name.now) (suits (world_of self.now.problem) row.now.part name.now) }
    {
        let world = self.problem().world();
        match asked_node(&world, self.graph().graph(), name) {
            Some(child) => suits(&world, &row.part, name, child),
            None => false,
        }
    }

    fn suits_asked(&self, row: &DependRow) -> bool
        ensures { result ≡ is_some_and row.now.part.name
            (λ name. is_some_and (asked_node (world_of self.now.problem) self.now.graph name)
            (suits (world_of self.now.problem) row.now.part name)) }
    {
        match &row.part.name {
            Some(name) => self.is_suited(row, name.as_str()),
            None => false,
        }
    }

    /// Where the directive holds, its part holds at the node that it asks for.
    #[tactic(auto, unfolding(graph_rules::specs::Directives::keeps_constraint))]
    pub fn keeps_constraint(&self, node: &Node, row: &DependRow) -> Result<bool, AllocError>
        ensures { IfOk result (λ answer. answer ≡ at keeps_constraint self.now node.now row.now) }
    {
        if !applies(self.alloc(), self.problem(), self.graph(), &row.when, node)? {
            return Ok(true);
        }
        Ok(self.suits_asked(row))
    }

    fn spec_holds(&self, node: &Node, spec: &Spec) -> Result<bool, AllocError>
        ensures { IfOk result (λ answer. answer ≡ holds (world_of self.now.problem) spec.now
            self.now.graph node.now.name) }
    {
        let world = self.problem().world();
        holds(self.alloc(), &world, spec, self.graph(), node.name.as_str())
    }

    /// The directive and its spec do not both hold.
    #[tactic(auto, unfolding(graph_rules::specs::Directives::keeps_conflict))]
    pub fn keeps_conflict(&self, node: &Node, row: &ConflictRow) -> Result<bool, AllocError>
        ensures { IfOk result (λ answer. answer ≡ at keeps_conflict self.now node.now row.now) }
    {
        if !applies(self.alloc(), self.problem(), self.graph(), &row.when, node)? {
            return Ok(true);
        }
        Ok(!self.spec_holds(node, &row.spec)?)
    }

    /// How many of some specs hold at a node.
    fn count_held(&self, node: &Node, specs: &[Spec]) -> Result<usize, AllocError>
        ensures { IfOk result (λ count. count ≡ count_by
            (λ spec. holds (world_of self.now.problem) spec self.now.graph node.now.name)
            specs.now) }
    {
        let mut count = 0;
        for spec in specs {
            if self.spec_holds(node, spec)? {
                count += 1;
            }
        }
        Ok(count)
    }

    /// Whether one of some specs holds at a node.
    fn some_holds(&self, node: &Node, specs: &[Spec]) -> Result<bool, AllocError>
        ensures { IfOk result (λ answer. answer ≡ list_any
            (λ spec. holds (world_of self.now.problem) spec self.now.graph node.now.name)
            specs.now) }
    {
        for spec in specs {
            if self.spec_holds(node, spec)? {
                return Ok(true);
            }
        }
        Ok(false)
    }

    fn has_choice(&self, node: &Node, row: &RequireRow) -> Result<bool, AllocError>
        ensures { IfOk result (λ answer. answer ≡ at has_choice self.now node.now row.now) }
    {
        if row.one_of {
            return Ok(self.count_held(node, row.specs.as_slice())? == 1);
        }
        self.some_holds(node, row.specs.as_slice())
    }

    /// Where the directive holds, so do as many of its specs as it asks for.
    #[tactic(auto, unfolding(graph_rules::specs::Directives::keeps_requirement))]
    pub fn keeps_requirement(&self, node: &Node, row: &RequireRow) -> Result<bool, AllocError>
        ensures { IfOk result (λ answer. answer ≡ at keeps_requirement self.now node.now row.now) }
    {
        if !applies(self.alloc(), self.problem(), self.graph(), &row.when, node)? {
            return Ok(true);
        }
        self.has_choice(node, row)
    }
}

//! The edges of a node to build.
ghost use Rattle.std.specs.Prelude.{◌≡◌, ◌&&◌, IfOk, filter};
ghost use Rattle.std.specs.List.{list_all, list_any};
ghost use Rattle.std.specs.Str.{bytes_eq};
ghost use Rattle.condition_rules.specs.Words.{is_some_and};
ghost use Rattle.problem.specs.Nodes.{has_kind};
ghost use Rattle.problem.specs.Problems.{asked_by, depends_at};
ghost use Rattle.virtuals.specs.Virtuals.{is_virtual};
ghost use Rattle.graph_rules.specs.Built.{asks, asked_kinds, is_asked, is_asked_virtual};
ghost use Rattle.graph_rules.specs.Built.{keeps_extra_edge, names_virtual};
ghost use Rattle.keyed_lists.specs.Lent.{IsIndexOf};
ghost use Rattle.rule_checks.specs.Asked.{asked_text};
ghost use Rattle.rule_checks.specs.Kinds.{joined};
ghost use Rattle.rule_checks.specs.Checked.{at};

use crate::asked_rows::rows_by_text;
use crate::checks::Checks;
use condition_rules::Paths;
use graph_core::{Edge, Kinds, Node};
use keyed_lists::TextIndex;
use plain_data::Word;
use problem::{applies, asked_by, covers, depends_at};
use recipe_data::DependRow;
use std::alloc::AllocError;

fn joined(a: Kinds, b: Kinds) -> Kinds
    ensures { result ≡ joined a b }
{
    Kinds {
        build: a.build || b.build,
        link: a.link || b.link,
        run: a.run || b.run,
    }
}

fn has_kind(kinds: Kinds) -> bool
    ensures { result ≡ has_kind kinds }
{
    kinds.build || kinds.link || kinds.run
}

fn names(row: &DependRow, name: &str) -> bool
    ensures { result ≡ is_some_and row.now.part.name (bytes_eq name.now) }
{
    match &row.part.name {
        Some(asked) => name == asked.as_str(),
        None => false,
    }
}

impl<'a> Checks<'a> {
    fn is_asked_child(&self, child: &str, row: &DependRow) -> bool
        ensures { result ≡ is_some_and (at asked_by self.now row.now)
            (λ asked. bytes_eq asked.name child.now) }
    {
        match asked_by(self.problem(), self.graph(), row) {
            Some(asked) => asked.name.as_str() == child,
            None => false,
        }
    }

    /// The row holds at a node and asks for this child.
    pub fn asks(&self, node: &Node, child: &str, row: &DependRow) -> Result<bool, AllocError>
        ensures { IfOk result (λ answer. answer ≡ at asks self.now node.now child.now row.now) }
    {
        Ok(
            applies(self.alloc(), self.problem(), self.graph(), &row.when, node)?
                && self.is_asked_child(child, row),
        )
    }

    /// All kinds that the rows of a node ask for of one child.
    fn asked_kinds(&self, node: &Node, child: &str, rows: &[DependRow]) -> Result<Kinds, AllocError>
        ensures { IfOk result (λ kinds. kinds ≡ asked_kinds
            (filter (at asks self.now node.now child.now) rows.now)) }
    {
        let mut kinds = Kinds {
            build: false,
            link: false,
            run: false,
        };
        for row in rows {
            if self.asks(node, child, row)? {
                kinds = joined(kinds, row.kinds);
            }
        }
        Ok(kinds)
    }

    fn names_virtual(&self, name: &Word, row: &DependRow) -> bool
        ensures { result ≡ names_virtual self.now.problem name.now row.now }
    {
        let world = self.problem().world();
        world.is_virtual(name.as_str()) && names(row, name.as_str())
    }

    /// Whether a row asks for a virtual, holds at a node and asks for a child.
    fn asks_by(
        &self,
        node: &Node,
        child: &str,
        name: &Word,
        row: &DependRow,
    ) -> Result<bool, AllocError>
        ensures { IfOk result (λ answer. answer
            ≡ (names_virtual self.now.problem name.now row.now && at asks self.now node.now
            child.now row.now)) }
    {
        if !self.names_virtual(name, row) {
            return Ok(false);
        }
        self.asks(node, child, row)
    }

    /// Whether some row does so.
    fn some_asks(
        &self,
        node: &Node,
        child: &str,
        name: &Word,
        rows: &[(&str, &DependRow)],
    ) -> Result<bool, AllocError>
        ensures { IfOk result (λ answer. answer ≡ list_any
            (λ row. names_virtual self.now.problem name.now row.1.now && at asks self.now node.now
            child.now row.1.now) rows.now) }
    {
        for row in rows {
            if self.asks_by(node, child, name, row.1)? {
                return Ok(true);
            }
        }
        Ok(false)
    }

    /// Whether some row of a node asks for a virtual, of which the child is the provider.
    fn is_asked_virtual(
        &self,
        node: &Node,
        rows: &TextIndex<DependRow>,
        child: &str,
        name: &Word,
    ) -> Result<bool, AllocError>
        requires { IsIndexOf asked_text (depends_at self.now.problem node.now.name) rows.now }
        ensures { IfOk result (λ answer. answer ≡ at is_asked_virtual self.now node.now child.now
            name.now) }
    {
        self.some_asks(node, child, name, rows.of(name.as_str()))
    }

    /// Whether that is so of each of these virtuals.
    fn asks_each(
        &self,
        node: &Node,
        rows: &TextIndex<DependRow>,
        child: &str,
        virtuals: &[Word],
    ) -> Result<bool, AllocError>
        requires { IsIndexOf asked_text (depends_at self.now.problem node.now.name) rows.now }
        ensures { IfOk result (λ answer. answer ≡ list_all
            (at is_asked_virtual self.now node.now child.now) virtuals.now) }
    {
        for name in virtuals {
            if !self.is_asked_virtual(node, rows, child, name)? {
                return Ok(false);
            }
        }
        Ok(true)
    }

    /// Whether rows ask for all kinds of an edge, which has one at least, and for all its virtuals.
    fn is_asked(
        &self,
        node: &Node,
        by_text: &TextIndex<DependRow>,
        edge: &Edge,
    ) -> Result<bool, AllocError>
        requires { IsIndexOf asked_text (depends_at self.now.problem node.now.name) by_text.now }
        ensures { IfOk result (λ answer. answer ≡ at is_asked self.now node.now edge.now) }
    {
        if !has_kind(edge.kinds) {
            return Ok(false);
        }
        let rows = depends_at(self.problem(), node.name.as_str());
        let child = edge.child.as_str();
        let kinds = self.asked_kinds(node, child, rows)?;
        Ok(
            covers(kinds, edge.kinds)
                && self.asks_each(node, by_text, child, edge.virtuals.values())?,
        )
    }

    /// Whether that is so of each edge.
    fn all_asked(
        &self,
        node: &Node,
        by_text: &TextIndex<DependRow>,
        edges: &[Edge],
    ) -> Result<bool, AllocError>
        requires { IsIndexOf asked_text (depends_at self.now.problem node.now.name) by_text.now }
        ensures { IfOk result (λ answer. answer ≡ list_all (at is_asked self.now node.now)
            edges.now) }
    {
        for edge in edges {
            if !self.is_asked(node, by_text, edge)? {
                return Ok(false);
            }
        }
        Ok(true)
    }

    /// Each edge, each kind on it and each virtual that it names is asked for.
    #[tactic(auto, unfolding(graph_rules::specs::Built::keeps_extra_edge))]
    pub fn keeps_extra_edge(&self, node: &Node) -> Result<bool, AllocError>
        ensures { IfOk result (λ answer. answer ≡ at keeps_extra_edge self.now node.now) }
    {
        let edges = self.graph().graph().edges_from(node.name.as_str());
        let rows = depends_at(self.problem(), node.name.as_str());
        let by_text = rows_by_text(self.alloc(), rows)?;
        self.all_asked(node, &by_text, edges)
    }
}

//! The rule of kept nodes.
ghost use Rattle.std.specs.Prelude.{◌≡◌, ◌&&◌, ◌||◌, false, IfOk, filter, slice_get};
ghost use Rattle.std.specs.List.{list_all, list_any};
ghost use Rattle.std.specs.Option.{option_copied};
ghost use Rattle.std.specs.Str.{bytes_eq};
ghost use Rattle.graph_core.specs.Graphs.{node_of, edge_of};
ghost use Rattle.condition_rules.specs.Words.{implies, is_some_and};
ghost use Rattle.problem.specs.Nodes.{is_installed};
ghost use Rattle.graph_core.specs.declared.node.Origin.TheVariants.{External, Installed};
ghost use Rattle.rule_checks.specs.Records.{keeps_record};
ghost use Rattle.problem.specs.Problems.{package_entry_of, externals_in, record_at};
ghost use Rattle.graph_core.specs.Graphs.{provider_of};
ghost use Rattle.graph_rules.specs.Kept.{same_attributes, external_node, has_kinds, is_recorded, are_provided, keeps_child};
ghost use Rattle.graph_rules.specs.Kept.{is_child, keeps_origin, keeps_kept};
ghost use Rattle.rule_checks.specs.Checked.{at};

use crate::checks::Checks;
use crate::external::external_node;
use crate::same::{same_attributes, same_installed};
use crate::variants::same_names;
use condition_rules::Paths;
use graph_core::{Edge, Kinds, Node, Origin};
use plain_data::Word;
use problem::{covers, entry_of};
use reuse_db::{Dependency, Record};
use site_settings::ExternalEntry;
use spec_hash::Hash;
use std::alloc::AllocError;

fn is_no_edge(edges: &[Edge]) -> bool
    ensures { result ≡ list_all (λ e. false) edges.now }
{
    edges.iter().all(|_| false)
}

fn is_installed(hash: &Hash, node: &Node) -> bool
    ensures { result ≡ is_installed hash.now node.now }
{
    match &node.origin {
        Origin::Installed(own) => own.as_str() == hash.as_str(),
        Origin::Built | Origin::External(_) => false,
    }
}

/// Whether an edge has just the link and run kinds of a dependency.
fn has_kinds(kinds: Kinds, edge: &Edge) -> bool
    ensures { result ≡ has_kinds kinds edge.now }
{
    let kept = Kinds {
        build: false,
        link: kinds.link,
        run: kinds.run,
    };
    covers(edge.kinds, kept) && covers(kept, edge.kinds)
}

/// Whether an edge is as a dependency records it.
fn is_recorded(dependency: &Dependency, edge: &Edge) -> bool
    ensures { result ≡ is_recorded dependency.now edge.now }
{
    has_kinds(dependency.kinds, edge)
        && same_names(edge.virtuals.values(), dependency.virtuals.values())
}

fn is_kept(kinds: Kinds) -> bool
    ensures { result ≡ (kinds.link || kinds.run) }
{
    kinds.link || kinds.run
}

impl<'a> Checks<'a> {
    // ---- externals

    fn external_at(&self, name: &str, place: u64) -> Option<&'a ExternalEntry>
        ensures { option_copied result ≡ slice_get
            (externals_in (package_entry_of self.now.problem name.now)) place }
    {
        match entry_of(self.problem(), name) {
            Some(entry) => entry.externals.as_slice().get(place as usize),
            None => None,
        }
    }

    fn same_external(
        &self,
        node: &Node,
        place: u64,
        entry: &ExternalEntry,
    ) -> Result<bool, AllocError>
        ensures { IfOk result (λ answer. answer ≡ same_attributes node.now
            (external_node self.now.problem node.now.name place entry.now)) }
    {
        let whole = external_node(self.alloc(), self.problem(), &node.name, place, entry)?;
        Ok(same_attributes(node, &whole))
    }

    fn is_external(&self, node: &Node, place: u64) -> Result<bool, AllocError>
        ensures { IfOk result (λ answer. answer ≡ is_some_and
            (slice_get (externals_in (package_entry_of self.now.problem node.now.name)) place)
            (λ entry. same_attributes node.now (external_node self.now.problem node.now.name place
            entry))) }
    {
        match self.external_at(node.name.as_str(), place) {
            Some(entry) => self.same_external(node, place, entry),
            None => Ok(false),
        }
    }

    // ---- installed nodes

    #[tactic(auto, unfolding(problem::specs::Problems::record_at))]
    fn record_at(&self, hash: &Hash) -> Option<&'a Record>
        ensures { option_copied result ≡ record_at self.now.problem hash.now }
    {
        self.problem().database().find(hash)
    }

    fn is_there(&self, name: &str, hash: &Hash) -> bool
        ensures { result ≡ is_some_and (node_of self.now.graph name.now) (is_installed hash.now) }
    {
        match self.graph().graph().node(name) {
            Some(node) => is_installed(hash, node),
            None => false,
        }
    }

    fn is_joined(&self, parent: &str, child: &str, dependency: &Dependency) -> bool
        ensures { result ≡ is_some_and (edge_of self.now.graph parent.now child.now)
            (is_recorded dependency.now) }
    {
        match self.graph().graph().edge(parent, child) {
            Some(edge) => is_recorded(dependency, edge),
            None => false,
        }
    }

    fn is_provider(&self, virtual_name: &str, name: &str) -> bool
        ensures { result ≡ is_some_and (provider_of self.now.graph virtual_name.now)
            (λ p. bytes_eq p name.now) }
    {
        match self.graph().graph().provider_of(virtual_name) {
            Some(provider) => provider == name,
            None => false,
        }
    }

    /// Whether a package is the provider of each of these virtuals.
    fn are_provided(&self, name: &str, virtuals: &[Word]) -> bool
        ensures { result ≡ are_provided self.now.graph name.now virtuals.now }
    {
        virtuals
            .iter()
            .all(|wanted| self.is_provider(wanted.as_str(), name))
    }

    /// Whether an installed node has the edge to a child of its record, which is a node and
    /// provides
    /// what is recorded.
    fn keeps_child(&self, name: &str, dependency: &Dependency) -> bool
        ensures { result ≡ at keeps_child self.now name.now dependency.now }
    {
        match self.record_at(&dependency.hash) {
            Some(child) => {
                self.is_there(child.name.as_str(), &dependency.hash)
                    && self.is_joined(name, child.name.as_str(), dependency)
                    && self.are_provided(child.name.as_str(), dependency.virtuals.values())
            }
            None => false,
        }
    }

    fn keeps_each(&self, name: &str, dependencies: &[Dependency]) -> bool
        ensures { result ≡ list_all (λ d. implies (d.kinds.link || d.kinds.run)
            (at keeps_child self.now name.now d)) dependencies.now }
    {
        dependencies
            .iter()
            .all(|d| !is_kept(d.kinds) || self.keeps_child(name, d))
    }

    fn keeps_children(&self, name: &str, dependencies: &[Dependency]) -> bool
        ensures { result ≡ list_all (at keeps_child self.now name.now)
            (filter (λ d. d.kinds.link || d.kinds.run) dependencies.now) }
    {
        self.keeps_each(name, dependencies)
    }

    fn is_named(&self, hash: &Hash, name: &Word) -> bool
        ensures { result ≡ is_some_and (record_at self.now.problem hash.now)
            (λ child. bytes_eq child.name name.now) }
    {
        match self.record_at(hash) {
            Some(child) => child.name.as_str() == name.as_str(),
            None => false,
        }
    }

    fn some_named(&self, dependencies: &[Dependency], name: &Word) -> bool
        ensures { result ≡ list_any (λ d. (d.kinds.link || d.kinds.run) && is_some_and
            (record_at self.now.problem d.hash) (λ child. bytes_eq child.name name.now))
            dependencies.now }
    {
        dependencies
            .iter()
            .any(|d| is_kept(d.kinds) && self.is_named(&d.hash, name))
    }

    fn is_child(&self, entry: &Record, edge: &Edge) -> bool
        ensures { result ≡ is_child self.now.problem entry.now edge.now }
    {
        self.some_named(entry.dependencies.as_slice(), &edge.child)
    }

    fn are_children(&self, entry: &Record, edges: &[Edge]) -> bool
        ensures { result ≡ list_all (is_child self.now.problem entry.now) edges.now }
    {
        edges.iter().all(|edge| self.is_child(entry, edge))
    }

    fn keeps_record(&self, node: &Node, entry: &Record) -> bool
        ensures { result ≡ at keeps_record self.now node.now entry.now }
    {
        let name = node.name.as_str();
        same_installed(node, entry)
            && self.keeps_children(name, entry.dependencies.as_slice())
            && self.are_children(entry, self.graph().graph().edges_from(name))
    }

    // ---- the rule

    fn keeps_external(&self, node: &Node, place: u64) -> Result<bool, AllocError>
        ensures { IfOk result (λ answer. answer ≡ at keeps_origin self.now node.now
            (External place)) }
    {
        let same = self.is_external(node, place)?;
        Ok(same && is_no_edge(self.graph().graph().edges_from(node.name.as_str())))
    }

    fn keeps_installed(&self, node: &Node, hash: &Hash) -> bool
        ensures { result ≡ at keeps_origin self.now node.now (Installed hash.now) }
    {
        match self.record_at(hash) {
            Some(entry) => self.keeps_record(node, entry),
            None => false,
        }
    }

    /// A built node has no prefix, an external is its completed entry and has no edge, and an
    /// installed
    /// node is its record, with edges exactly to the link and run children.
    #[tactic(auto, unfolding(graph_rules::specs::Kept::keeps_kept))]
    pub fn keeps_kept(&self, node: &Node) -> Result<bool, AllocError>
        ensures { IfOk result (λ answer. answer ≡ at keeps_kept self.now node.now) }
    {
        match &node.origin {
            Origin::Built => Ok(node.prefix.is_none()),
            Origin::External(place) => self.keeps_external(node, *place),
            Origin::Installed(hash) => Ok(self.keeps_installed(node, hash)),
        }
    }
}

//! Formulas of edges that none asks for.
ghost use Rattle.std.specs.Prelude.{◌≡◌, IfOk};
ghost use Rattle.std.specs.Str.{bytes_eq};
ghost use Rattle.graph_formulas.specs.Words.{names_for};
ghost use Rattle.graph_formulas.specs.Edges.{asks_rule, extra_edges_rule};
ghost use Rattle.graph_formulas.specs.Laws.{virtuals_on};
ghost use Rattle.literal_table.specs.Tables.{children_of};
ghost use Rattle.rule_formulas.specs.Asking.{may_name_as};
ghost use Rattle.rule_formulas.specs.SaysEdges.{says_edges, says_asking, says_kind, says_edge, says_all};
ghost use Rattle.rule_formulas.specs.Terms.{plain_term, kinds_of, has_of};

use crate::asking_rows::{AskingRow, asking_rows};
use crate::named_rows::NamedRows;
use clause_formulas::Formula;
use graph_core::Kinds;
use literal_table::{EdgeLits, LiteralTable};
use problem::Problem;
use recipe_data::DependRow;
use std::alloc::{AllocError, Global};
use word_formulas::{MetConditions, Scribe, each_where, some_where};

/// The edges from a name, with the rows that may ask for them and what gives conditions their
/// formulas.
#[derive(Drop)]
pub(crate) struct EdgeBuilder<'a, 'r, C> {
    pub(crate) scribe: Scribe<'a>,
    pub(crate) problem: &'a Problem,
    pub(crate) conditions: &'a C,
    pub(crate) name: &'a str,
    /// The rows, each with the packages that it may ask for.
    pub(crate) rows: &'a [AskingRow<'r>],
    /// The same rows, found by the names that they ask for.
    pub(crate) named: &'a NamedRows<'r>,
}

/// What an edge is for.
#[derive(Clone, Copy)]
enum EdgeKind {
    Build,
    Link,
    Run,
}

// The kind alone.
fn kinds_of(kind: EdgeKind) -> Kinds
    ensures { result ≡ kinds_of kind }
{
    match kind {
        EdgeKind::Build => Kinds {
            build: true,
            link: false,
            run: false,
        },
        EdgeKind::Link => Kinds {
            build: false,
            link: true,
            run: false,
        },
        EdgeKind::Run => Kinds {
            build: false,
            link: false,
            run: true,
        },
    }
}

fn has(kind: EdgeKind, kinds: &Kinds) -> bool
    ensures { result ≡ has_of kind kinds.now }
{
    match kind {
        EdgeKind::Build => kinds.build,
        EdgeKind::Link => kinds.link,
        EdgeKind::Run => kinds.run,
    }
}

/// The row has the kind, and may ask for this child, by its name or by a virtual.
fn may_name_as(kind: EdgeKind, child: &str, asking: &AskingRow) -> bool
    ensures { result ≡ may_name_as kind child.now asking.now }
{
    has(kind, &asking.row().kinds) && asking.may_name(child)
}

fn leaves(edge: &EdgeLits, name: &str) -> bool
    ensures { result ≡ bytes_eq edge.now.parent name.now }
{
    edge.parent.as_str() == name
}

impl<'a, 'r, C: MetConditions> EdgeBuilder<'a, 'r, C> {
    /// The condition of the row is met, and it asks for this child.
    fn row_formula(&self, child: &str, row: &DependRow) -> Result<Formula, AllocError>
        ensures { IfOk result (says_edges C.condition_of self.now
            (λ problem names name. asks_rule problem names name child.now row.now)) }
    {
        let met = self
            .conditions
            .met(self.scribe.alloc, self.name, &row.when)?;
        self.scribe.asks_formula(self.problem, child, row, met)
    }

    /// Some row asks for the child as this kind.
    fn asking_formula(&self, kind: EdgeKind, child: &str) -> Result<Formula, AllocError>
        ensures { IfOk result (says_asking C.condition_of self.now kind child.now) }
    {
        some_where(
            self.scribe.alloc,
            self.rows,
            |asking| may_name_as(kind, child, asking),
            |asking| self.row_formula(child, asking.row()),
        )
    }

    /// Where the edge has the kind, some row asks for it.
    fn kind_formula(&self, kind: EdgeKind, child: &str) -> Result<Formula, AllocError>
        ensures { IfOk result (says_kind C.condition_of self.now kind child.now) }
    {
        let kinds = kinds_of(kind);
        let edge = self.scribe.has_edge(self.name, child, &kinds)?;
        let asked = self.asking_formula(kind, child)?;
        Formula::implies(self.scribe.alloc, edge, asked)
    }

    /// The edge has no kind and no virtual that none asks for.
    fn extra_edge_formula(&self, child: &str) -> Result<Formula, AllocError>
        ensures { IfOk result (says_edge C.condition_of self.now child.now) }
    {
        let build = self.kind_formula(EdgeKind::Build, child)?;
        let link = self.kind_formula(EdgeKind::Link, child)?;
        let run = self.kind_formula(EdgeKind::Run, child)?;
        let most = Formula::both(self.scribe.alloc, build, link)?;
        let kinds = Formula::both(self.scribe.alloc, most, run)?;
        let virtuals = self.virtuals_formula(child)?;
        Formula::both(self.scribe.alloc, kinds, virtuals)
    }

    /// No edge from the name has a kind or a virtual that none of these rows asks for.
    fn edges_formula(&self) -> Result<Formula, AllocError>
        ensures { IfOk result (says_all C.condition_of self.now) }
    {
        each_where(
            self.scribe.alloc,
            self.scribe.table.edges(),
            |edge| leaves(edge, self.name),
            |edge| self.extra_edge_formula(edge.child.as_str()),
        )
    }
}

/// No edge from the name has a kind or a virtual that none asks for.
pub fn extra_edges_formula<C: MetConditions>(
    alloc: Global,
    problem: &Problem,
    table: &LiteralTable,
    conditions: &C,
    name: &str,
) -> Result<Formula, AllocError>
    ensures { IfOk result (λ formula. formula ≡ plain_term table.now (C.condition_of conditions.now)
        (extra_edges_rule problem.now (names_for table.now) (virtuals_on table.now name.now)
        (children_of table.now name.now) name.now)) }
{
    let rows = asking_rows(alloc, problem, table, name)?;
    let named = NamedRows::new(alloc, problem, name)?;
    let builder = EdgeBuilder {
        scribe: Scribe { alloc, table },
        problem,
        conditions,
        name,
        rows: rows.as_slice(),
        named: &named,
    };
    builder.edges_formula()
}

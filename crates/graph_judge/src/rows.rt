//! The rules that are said of each directive at a node to build, and of each requirement of the
//! settings at a node.
ghost use Rattle.std.specs.Prelude.{◌≡◌, ◌++◌, IfOk, OnOk};
ghost use Rattle.problem.specs.Problems.{depends_at, conflicts_at};
ghost use Rattle.graph_rules.specs.Directives.{keeps_conflict};
ghost use Rattle.graph_judge.specs.Rows.{broken_at, row_places, rows_places};
ghost use Rattle.graph_judge.specs.Rows.{keeps_directive, keeps_depend, keeps_require, requires_at, asks_require};

use crate::judging::Judge;
use crate::places::add_unless;
use graph_core::Node;
use plain_data::Word;
use problem::{Problem, conflicts_at, depends_at, required_at, requirements_at};
use recipe_data::{ConflictRow, DependRow, RequireRow};
use std::alloc::AllocError;

/// A rule that is said of each row of a list at a node.
pub(crate) trait RowRule {
    ghost use Rattle.std.specs.Prelude.{◌≡◌, Bool, ℕ, List, IfOk};
    ghost use Rattle.graph_core.specs.Graphs.{Text};
    ghost use Rattle.graph_core.specs.declared.node.Node.{Node};
    ghost use Rattle.problem.specs.Problems.{Problem};
    ghost use Rattle.graph_judge.specs.Judging.{Judging};

    type Row;

    ghost rows: { Self → Problem → Text → List Self.Row };

    ghost number: { Self → Self.Row → ℕ };

    ghost keeps: { Self → Judging → Node → Self.Row → Bool };

    /// The rows of a package.
    fn rows<'p>(&self, problem: &'p Problem, name: &str) -> &'p [Self::Row]
        ensures { result.now ≡ rows self.now problem.now name.now };

    fn number(&self, row: &Self::Row) -> u64
        ensures { result ≡ number self.now row.now };

    /// Whether a row is kept at a node, or not asked there.
    fn keeps(&self, judge: &Judge, node: &Node, row: &Self::Row) -> Result<bool, AllocError>
        ensures { IfOk result (λ kept. kept ≡ keeps self.now judge.now node.now row.now) };
}

/// What a `depends_on` asks: its edge, or what holds at the child.
#[derive(Debug, Clone, Copy, PartialEq, Eq)]
pub(crate) enum DependRule {
    Edge,
    Constraint,
}

impl RowRule for DependRule {
    type Row = DependRow;

    ghost rows = { λ rule. depends_at };

    ghost number = { λ rule row. row.number };

    ghost keeps = { λ rule. keeps_directive (λ row. row.number) (keeps_depend rule) };

    fn rows<'p>(&self, problem: &'p Problem, name: &str) -> &'p [DependRow] {
        depends_at(problem, name)
    }

    fn number(&self, row: &DependRow) -> u64 {
        row.number
    }

    fn keeps(&self, judge: &Judge, node: &Node, row: &DependRow) -> Result<bool, AllocError> {
        if !judge.asks_directive(node, row.number) {
            return Ok(true);
        }
        match self {
            DependRule::Edge => judge.checks.keeps_edge(node, row),
            DependRule::Constraint => judge.checks.keeps_constraint(node, row),
        }
    }
}

/// What a `conflicts` asks.
#[derive(Drop)]
pub(crate) struct ConflictRule {}

impl RowRule for ConflictRule {
    type Row = ConflictRow;

    ghost rows = { λ rule. conflicts_at };

    ghost number = { λ rule row. row.number };

    ghost keeps = { λ rule. keeps_directive (λ row. row.number) keeps_conflict };

    fn rows<'p>(&self, problem: &'p Problem, name: &str) -> &'p [ConflictRow] {
        conflicts_at(problem, name)
    }

    fn number(&self, row: &ConflictRow) -> u64 {
        row.number
    }

    fn keeps(&self, judge: &Judge, node: &Node, row: &ConflictRow) -> Result<bool, AllocError> {
        if !judge.asks_directive(node, row.number) {
            return Ok(true);
        }
        judge.checks.keeps_conflict(node, row)
    }
}

/// What is required: by a recipe of a node to build, or by the settings of a node of any origin.
#[derive(Debug, Clone, Copy, PartialEq, Eq)]
pub(crate) enum RequireRule {
    Recipe,
    Settings,
}

impl RequireRule {
    fn is_asked(&self, judge: &Judge, node: &Node, number: u64) -> bool
        ensures { result ≡ asks_require self.now judge.now node.now number }
    {
        match self {
            RequireRule::Recipe => judge.asks_directive(node, number),
            RequireRule::Settings => judge.asks_setting(node, number),
        }
    }
}

impl RowRule for RequireRule {
    type Row = RequireRow;

    ghost rows = { requires_at };

    ghost number = { λ rule row. row.number };

    ghost keeps = { keeps_require };

    fn rows<'p>(&self, problem: &'p Problem, name: &str) -> &'p [RequireRow] {
        match self {
            RequireRule::Recipe => requirements_at(problem, name),
            RequireRule::Settings => required_at(problem, name),
        }
    }

    fn number(&self, row: &RequireRow) -> u64 {
        row.number
    }

    fn keeps(&self, judge: &Judge, node: &Node, row: &RequireRow) -> Result<bool, AllocError> {
        if !self.is_asked(judge, node, row.number) {
            return Ok(true);
        }
        judge.checks.keeps_requirement(node, row)
    }
}

impl<'a> Judge<'a> {
    fn add_rows<R: RowRule>(
        &self,
        places: &mut Vec<(Word, u64)>,
        rule: &R,
        node: &Node,
        rows: &[R::Row],
    ) -> Result<(), AllocError>
        ensures { OnOk result (places.new.items ≡ places.old.items
            ++ row_places (R.number rule.now) (R.keeps rule.now self.now) node.now rows.now) }
    {
        for row in rows {
            let kept = rule.keeps(self, node, row)?;
            add_unless(
                self.alloc(),
                places,
                kept,
                node.name.as_str(),
                rule.number(row),
            )?;
        }
        Ok(())
    }

    fn add_all_rows<R: RowRule>(
        &self,
        places: &mut Vec<(Word, u64)>,
        rule: &R,
        nodes: &[Node],
    ) -> Result<(), AllocError>
        ensures { OnOk result (places.new.items ≡ places.old.items
            ++ rows_places (R.rows rule.now self.now.problem) (R.number rule.now)
            (R.keeps rule.now self.now) nodes.now) }
    {
        for node in nodes {
            let rows = rule.rows(self.problem(), node.name.as_str());
            self.add_rows(places, rule, node, rows)?;
        }
        Ok(())
    }

    /// The nodes and rows where such a rule is broken.
    pub(crate) fn row_places<R: RowRule>(&self, rule: &R) -> Result<Vec<(Word, u64)>, AllocError>
        ensures { IfOk result (λ places. places.items
            ≡ broken_at (R.rows rule.now self.now.problem) (R.number rule.now)
            (R.keeps rule.now self.now) self.now.graph) }
    {
        let mut places = Vec::new(self.alloc());
        self.add_all_rows(&mut places, rule, self.nodes())?;
        Ok(places)
    }
}

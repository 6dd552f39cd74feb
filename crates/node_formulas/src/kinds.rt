// Formulas of the kinds of an edge, as recorded.
ghost use Rattle.std.specs.Prelude.{◌≡◌, true, IfOk};
ghost use Rattle.clause_formulas.specs.Rules.{fact, isnt, both_of, if_so};
ghost use Rattle.graph_formulas.specs.Facts.{has_edge};
ghost use Rattle.graph_formulas.specs.Lists.{settled_test};
ghost use Rattle.graph_core.specs.Graphs.{no_kinds};
ghost use Rattle.graph_formulas.specs.Kept.{kinds_rule};
ghost use Rattle.word_formulas.specs.Builders.{plain_said};

use clause_formulas::Formula;
use graph_core::Kinds;
use literal_table::LiteralTable;
use std::alloc::{AllocError, Global};
use word_formulas::Scribe;

/// No kind.
pub(crate) fn no_kinds() -> Kinds
    ensures { result ≡ no_kinds }
{
    Kinds {
        build: false,
        link: false,
        run: false,
    }
}

fn build_kind() -> Kinds
    ensures { result ≡ record no_kinds { build = true } }
{
    Kinds {
        build: true,
        link: false,
        run: false,
    }
}

fn link_kind() -> Kinds
    ensures { result ≡ record no_kinds { link = true } }
{
    Kinds {
        build: false,
        link: true,
        run: false,
    }
}

fn run_kind() -> Kinds
    ensures { result ≡ record no_kinds { run = true } }
{
    Kinds {
        build: false,
        link: false,
        run: true,
    }
}

/// An edge that has the kind goes to the child only if the kind is recorded.
pub(crate) fn only_recorded(
    alloc: Global,
    table: &LiteralTable,
    name: &str,
    child: &str,
    kind: &Kinds,
    recorded: bool,
) -> Result<Formula, AllocError>
    ensures { IfOk result (λ formula. formula ≡ plain_said table.now
        (if_so (fact (has_edge name.now child.now kind.now)) (settled_test recorded))) }
{
    let edge = Scribe { alloc, table }.has_edge(name, child, kind)?;
    let known = Scribe { alloc, table }.given(recorded);
    Formula::implies(alloc, edge, known)
}

// The edge has the kinds that are kept, and is not for building.
fn kept_kinds(
    alloc: Global,
    table: &LiteralTable,
    name: &str,
    child: &str,
    kept: &Kinds,
) -> Result<Formula, AllocError>
    ensures { IfOk result (λ formula. formula ≡ plain_said table.now
        (both_of (fact (has_edge name.now child.now kept.now))
        (isnt (fact (has_edge name.now child.now (record no_kinds { build = true })))))) }
{
    let there = Scribe { alloc, table }.has_edge(name, child, kept)?;
    let build = Scribe { alloc, table }.has_edge(name, child, &build_kind())?;
    let other = build.negated();
    Formula::both(alloc, there, other)
}

/// An edge has the kinds link and run alone, as recorded.
pub(crate) fn kinds_formula(
    alloc: Global,
    table: &LiteralTable,
    name: &str,
    child: &str,
    kinds: Kinds,
) -> Result<Formula, AllocError>
    ensures { IfOk result (λ formula. formula
        ≡ plain_said table.now (kinds_rule name.now child.now kinds)) }
{
    let only_kept = Kinds {
        build: false,
        link: kinds.link,
        run: kinds.run,
    };
    let kept = kept_kinds(alloc, table, name, child, &only_kept)?;
    let links = only_recorded(alloc, table, name, child, &link_kind(), kinds.link)?;
    let first = Formula::both(alloc, kept, links)?;
    let runs = only_recorded(alloc, table, name, child, &run_kind(), kinds.run)?;
    Formula::both(alloc, first, runs)
}

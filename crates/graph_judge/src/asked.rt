//! Demands by their names, found among those of some numbers.
ghost use Rattle.std.specs.Prelude.{◌≡◌};
ghost use Rattle.std.specs.List.{list_any};
ghost use Rattle.problem.specs.Demands.{demands_at};
ghost use Rattle.graph_rules.specs.Verdict.{is_among, same_demand};
ghost use Rattle.graph_judge.specs.Asked.{demand_of, is_numbered};

use problem::{Demand, Problem};

/// A root, a directive of a package or a requirement of the settings for it, by its number there.
#[derive(Clone, Copy)]
pub(crate) enum NamedDemand<'a> {
    Root(u64),
    Directive(&'a str, u64),
    Setting(&'a str, u64),
}

fn names(named: &NamedDemand, demand: &Demand) -> bool
    ensures { result ≡ same_demand (demand_of named.now) demand.now }
{
    match (named, demand) {
        (NamedDemand::Root(place), Demand::Root(other)) => *place == *other,
        (
            NamedDemand::Directive(name, number),
            Demand::Directive {
                package,
                number: other,
            },
        ) => { *name == package.as_str() && *number == *other }
        (
            NamedDemand::Setting(name, number),
            Demand::Setting {
                package,
                number: other,
            },
        ) => { *name == package.as_str() && *number == *other }
        _ => false,
    }
}

fn is_numbered(problem: &Problem, named: &NamedDemand, id: u64) -> bool
    ensures { result ≡ is_numbered problem.now (demand_of named.now) id }
{
    match problem.demand(id) {
        Some(demand) => names(named, demand),
        None => false,
    }
}

fn some_is(problem: &Problem, ids: &[u64], named: &NamedDemand) -> bool
    ensures { result ≡ list_any (is_numbered problem.now (demand_of named.now)) ids.now }
{
    ids.iter().any(|id| is_numbered(problem, named, *id))
}

/// Whether the demand is one of these numbers.
pub(crate) fn is_among(problem: &Problem, ids: &[u64], named: &NamedDemand) -> bool
    ensures { result ≡ is_among (demands_at problem.now ids.now) (demand_of named.now) }
{
    some_is(problem, ids, named)
}

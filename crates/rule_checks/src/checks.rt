//! What the rules of a graph are checked against.
ghost use Rattle.std.specs.Prelude.{◌≡◌};

use problem::{Explored, Problem};
use std::alloc::Global;
use std::marker::Model;

/// The checks of the rules: of a problem, at a graph with all its paths.
#[derive(Drop)]
pub struct Checks<'a> {
    alloc: Global,
    problem: &'a Problem,
    graph: &'a Explored<'a>,
}

impl<'a> Model for Checks<'a> {
    ghost use Rattle.rule_checks.specs.Checked.{Checked};

    ghost Value = { Checked };

    ghost view = { λ c. record { problem = c.problem.now; graph = c.graph.now } };
}

impl<'a> Checks<'a> {
    /// The checks of a problem's rules at a graph.
    pub fn new(alloc: Global, problem: &'a Problem, graph: &'a Explored<'a>) -> Checks<'a>
        ensures { result ≡ record { problem = problem.now; graph = graph.now } }
    {
        Checks {
            alloc,
            problem,
            graph,
        }
    }

    /// What a check takes memory from.
    pub fn alloc(&self) -> Global {
        self.alloc
    }

    /// The problem whose rules are checked.
    pub fn problem(&self) -> &'a Problem
        ensures { result.now ≡ self.now.problem }
    {
        self.problem
    }

    /// The graph at which they are checked.
    pub fn graph(&self) -> &'a Explored<'a>
        ensures { result.now ≡ self.now.graph }
    {
        self.graph
    }
}

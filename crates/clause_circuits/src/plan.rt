//! Plans of gates.
ghost use Rattle.std.specs.Prelude.{◌≡◌, ◌<◌, ◌^◌, [], reverse, IfOk};
ghost use Rattle.clause_circuits.specs.Gates.{Planned, Made, with_gate};
ghost use Rattle.clause_circuits.specs.Steps.{plan_at};

use crate::gate::Gate;
use clause_store::{ClauseList, Lit, Var};
use std::alloc::{AllocError, Global};
use std::marker::Model;

/// Gates for the variables from a first one on.
///
/// `new` at a list of clauses, then `add` for each gate, then `define_plan` on the same list.
#[derive(Drop)]
pub struct Plan {
    // The variable of the first gate.
    first: u64,
    // The gates, from the first on.
    gates: Vec<Gate>,
}

impl Model for Plan {
    ghost use Rattle.std.specs.Prelude.{reverse, ◌<◌, ◌^◌};
    ghost use Rattle.clause_circuits.specs.Gates.{Planned};

    ghost Value = { Planned };

    ghost view = { λ p. record { first = p.first; gates = reverse p.gates.items } };

    ghost invariant = { λ p. p.first < 2 ^ 63 };
}

impl Plan {
    /// No gate yet, for the variables that come next.
    pub fn new(alloc: Global, clauses: &ClauseList) -> Plan
        ensures { result ≡ plan_at clauses.now }
    {
        Plan {
            first: clauses.vars(),
            gates: Vec::new(alloc),
        }
    }

    /// The literal of one more gate.
    pub fn add(&mut self, gate: Gate) -> Result<Lit, AllocError>
        ensures { IfOk result (λ lit. with_gate self.old gate ≡ record {
          plan =
              self.new;
          answer = lit;
        }) }
    {
        let lit = Lit {
            var: Var(self.first + self.gates.len() as u64),
            positive: true,
        };
        self.gates.push(gate)?;
        Ok(lit)
    }

    /// The gates, from the first on.
    pub(crate) fn gates(&self) -> &[Gate]
        ensures { reverse result.now ≡ self.now.gates }
    {
        self.gates.as_slice()
    }
}

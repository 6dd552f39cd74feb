//! Formulas made of others.

ghost use Rattle.std.specs.Prelude.{◌≡◌, ◌+◌, ◌-◌, ◌<◌, ◌≤◌, ◌++◌, ◌∷◌, ◌^◌, IfOk, OnOk, map};
ghost use Rattle.std.specs.Option.{option_to_list};
ghost use Rattle.clause_circuits.specs.Gates.{lit_of};
ghost use Rattle.clause_formulas.specs.Statements.{atom, never, any_statement, opposite};
ghost use Rattle.level_encoding.specs.Composed.{last_rules, digit_rules, rising, digit_row};

use clause_formulas::Formula;
use clause_store::{Lit, Var};
use std::alloc::{AllocError, Global};

/// The true literal of a variable.
fn variable(x: u64) -> Lit
    ensures { result ≡ lit_of x }
{
    Lit {
        var: Var(x),
        positive: true,
    }
}

/// Nothing makes this true.
pub(crate) fn never(alloc: Global) -> Formula
    ensures { result ≡ never }
{
    Formula::any(Vec::new(alloc))
}

/// A formula is false, or one of two variables or their negations is true.
fn rule(alloc: Global, first: Lit, second: Lit, third: Option<Lit>) -> Result<Formula, AllocError>
    ensures { IfOk result (λ f. f ≡ any_statement
        (opposite (atom first) ∷ atom second ∷ map atom (option_to_list third))) }
{
    let mut cases = Vec::new(alloc);
    cases.push(Formula::lit(first).negated())?;
    cases.push(Formula::lit(second))?;
    if let Some(third) = third {
        cases.push(Formula::lit(third))?;
    }
    Ok(Formula::any(cases))
}

fn add_last_rules(
    alloc: Global,
    first: Lit,
    p: Lit,
    q: Lit,
    rules: &mut Vec<Formula>,
) -> Result<(), AllocError>
    ensures { OnOk result (rules.new.items ≡ rules.old.items
        ++ last_rules (atom first) (atom p) (atom q)) }
{
    rules.push(rule(alloc, first, p.negated(), None)?)?;
    rules.push(rule(alloc, first, q, None)?)?;
    Ok(())
}

fn add_digit_rules(
    alloc: Global,
    first: Lit,
    p: Lit,
    q: Lit,
    turn: Lit,
    rules: &mut Vec<Formula>,
) -> Result<(), AllocError>
    ensures { OnOk result (rules.new.items ≡ rules.old.items
        ++ digit_rules (atom first) (atom p) (atom q) (atom turn)) }
{
    rules.push(rule(alloc, first, p.negated(), Some(q))?)?;
    rules.push(rule(alloc, first, p.negated(), Some(turn))?)?;
    rules.push(rule(alloc, first, q, Some(turn))?)?;
    Ok(())
}

/// Where `first` is true, the number whose digits are the variables from `p` on is less than the
/// one from `q` on; the turns are the variables from `turn` on.
#[tactic(auto, using(crate::proofs::RowLaws::rows_rising))]
pub(crate) fn add_rising(
    alloc: Global,
    first: Lit,
    p: u64,
    q: u64,
    turn: u64,
    digits: usize,
    rules: &mut Vec<Formula>,
) -> Result<(), AllocError>
    requires parent { p + digits < 2 ^ 64 }
    requires child { q + digits < 2 ^ 64 }
    requires turns { turn + digits ≤ 2 ^ 64 }
    ensures { OnOk result (rules.new.items ≡ rules.old.items
        ++ rising (atom first) (digit_row p digits) (digit_row q digits)
        (digit_row turn (digits - 1))) }
{
    match digits {
        0 => {
            rules.push(Formula::lit(first).negated())?;
            Ok(())
        }
        1 => add_last_rules(alloc, first, variable(p), variable(q), rules),
        _ => {
            let next = variable(turn);
            add_digit_rules(alloc, first, variable(p), variable(q), next, rules)?;
            add_rising(alloc, next, p + 1, q + 1, turn + 1, digits - 1, rules)
        }
    }
}

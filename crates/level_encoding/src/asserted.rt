//! Formulas are asserted one after the other.
ghost use Rattle.std.specs.Prelude.{◌≡◌, ◌+◌, ◌≤◌, OnOk};
ghost use Rattle.level_encoding.specs.Asserted.{assert_all, with_vars};
ghost use Rattle.clause_formulas.specs.Allowed.{Allows};
ghost use Rattle.level_encoding.specs.Composed.{Meets};
ghost use Rattle.level_encoding.specs.Laws.{AllSaidBelow};

use clause_formulas::{Formula, assert};
use clause_store::{ClauseList, Label};
use std::alloc::{AllocError, Global};

/// Makes so many variables; after an error there are some more.
pub(crate) fn add_vars(clauses: &mut ClauseList, count: u64) -> Result<(), AllocError>
    ensures made { OnOk result (clauses.new ≡ with_vars clauses.old (clauses.old.vars + count)) }
    ensures kept { clauses.new.entries ≡ clauses.old.entries }
    ensures more { clauses.old.vars ≤ clauses.new.vars }
{
    for _i in 0..count {
        clauses.new_var()?;
    }
    Ok(())
}

/// Asserts each formula of a list.
pub(crate) fn assert_each(
    alloc: Global,
    clauses: &mut ClauseList,
    formulas: &[Formula],
) -> Result<(), AllocError>
    requires { AllSaidBelow clauses.old.vars formulas.now }
    ensures built { OnOk result (clauses.new ≡ assert_all clauses.old formulas.now) }
    ensures more { OnOk result (clauses.old.vars ≤ clauses.new.vars) }
    ensures allows { Allows clauses.old clauses.new (λ asked v. Meets v formulas.now) }
{
    for formula in formulas {
        assert(alloc, clauses, formula, Label::Structure)?;
    }
    Ok(())
}

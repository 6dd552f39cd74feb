//! Literals as numbers.
ghost use Rattle.std.specs.Prelude.{◌≡◌, ◌+◌, ◌≤◌, ◌<◌, ◌^◌, [], ◌∷◌, ◌++◌, length, vec_len, vec_capacity};
ghost use Rattle.clause_store.specs.Lits.{var_of, AllBelow};
ghost use Rattle.clause_store.specs.Kept.{code_of, codes_of, lit_of_code};

use crate::{Lit, Var};

// Twice the variable, and one more where the literal is true with it.
fn code_of(lit: Lit) -> u64
    requires { var_of lit < 2 ^ 63 }
    ensures { result ≡ code_of lit }
{
    lit.var.0 * 2 + u64::from(lit.positive)
}

/// The literal of a code.
pub(crate) fn lit_of_code(code: u64) -> Lit
    ensures { result ≡ lit_of_code code }
{
    Lit {
        var: Var(code / 2),
        positive: code % 2 == 1,
    }
}

/// Appends the codes of literals where there is room for them.
pub(crate) fn push_codes(codes: &mut Vec<u64>, lits: &[Lit])
    requires below { AllBelow (2 ^ 63) lits.now }
    requires room { vec_len codes.old + length lits.now ≤ vec_capacity codes.old }
    ensures items { codes.new.items ≡ codes.old.items ++ codes_of lits.now }
    ensures len { vec_len codes.new ≡ vec_len codes.old + length lits.now }
    ensures room { vec_capacity codes.old ≤ vec_capacity codes.new }
{
    for lit in lits {
        push_within(codes, code_of(*lit));
    }
}

/// Appends an item where there is room for it.
pub(crate) fn push_within<T: Drop>(items: &mut Vec<T>, item: T)
    requires { vec_len items.old < vec_capacity items.old }
    ensures items { items.new.items ≡ items.old.items ++ item ∷ [] }
    ensures len { vec_len items.new ≡ vec_len items.old + 1 }
    ensures room { vec_capacity items.old ≤ vec_capacity items.new }
{
    let _ = items.push(item);
}

//! The terms of edges whose ends differ.
ghost use Rattle.std.specs.Prelude.{◌≡◌, ◌++◌, ◌∷◌, [], map, not, is_some, IfOk, OnOk};
ghost use Rattle.std.specs.List.{list_any, list_all};
ghost use Rattle.std.specs.Str.{bytes_eq};
ghost use Rattle.clause_formulas.specs.Statements.{atom, never, no, both_statements, any_statement, all_statements};
ghost use Rattle.literal_table.specs.Choices.{any_choice as any_choice_on};
ghost use Rattle.cost_terms.specs.Differ.{is_any_text, is_some_compiler, same_compilers, filled_said, can_differ, differ, differ_terms};

use clause_formulas::Formula;
use clause_store::Lit;
use cost_terms::Weighted;
use graph_core::Compiler;
use literal_table::any_choice;
use plain_data::Word;
use problem::same_compiler;
use std::alloc::{AllocError, Global};

// What is always true.
fn always(alloc: Global) -> Formula
    ensures { result ≡ no never }
{
    Formula::any(Vec::new(alloc)).negated()
}

// The term of an edge: it is there, both ends have something, and not the same.
fn push_differ(
    alloc: Global,
    terms: &mut Vec<Weighted>,
    there: Formula,
    left: Formula,
    right: Formula,
    same: Vec<Formula>,
) -> Result<(), AllocError>
    ensures { OnOk result (terms.new.items ≡ terms.old.items ++ record {
      weight = 1;
      formula =
          all_statements (there ∷ left ∷ right ∷ no (any_statement same.items) ∷ []);
    } ∷ []) }
{
    let mut parts = Vec::new(alloc);
    parts.push(there)?;
    parts.push(left)?;
    parts.push(right)?;
    parts.push(Formula::any(same).negated())?;
    let formula = Formula::all(alloc, parts)?;
    terms.push(Weighted { weight: 1, formula })?;
    Ok(())
}

// ---- texts

// For each text at one end: it is chosen, and the same at the other end.
fn same_texts(
    alloc: Global,
    xs: &[(Word, Lit)],
    ys: &[(Word, Lit)],
) -> Result<Vec<Formula>, AllocError>
    ensures { IfOk result (λ parts. parts.items
        ≡ map (λ x. both_statements (atom x.1) (any_choice_on (bytes_eq x.0) ys.now)) xs.now) }
{
    let mut parts = Vec::new(alloc);
    for x in xs {
        let same = any_text(alloc, x.0.as_str(), ys)?;
        parts.push(Formula::both(alloc, Formula::lit(x.1), same)?)?;
    }
    Ok(parts)
}

fn any_text(alloc: Global, text: &str, ys: &[(Word, Lit)]) -> Result<Formula, AllocError>
    ensures { IfOk result (λ formula. formula ≡ any_choice_on (bytes_eq text.now) ys.now) }
{
    any_choice(alloc, ys, |y| text == y.as_str())
}

fn differs_from(x: &str, ys: &[(Word, Lit)]) -> bool
    ensures { result ≡ list_any (λ y. differ is_any_text bytes_eq x.now y.0) ys.now }
{
    ys.iter().any(|y| !(x == y.0.as_str()))
}

fn can_texts_differ(xs: &[(Word, Lit)], ys: &[(Word, Lit)]) -> bool
    ensures { result ≡ can_differ is_any_text bytes_eq xs.now ys.now }
{
    xs.iter().any(|x| differs_from(x.0.as_str(), ys))
}

/// The term of an edge whose ends choose different texts, unless they cannot.
pub fn push_texts_differ(
    alloc: Global,
    terms: &mut Vec<Weighted>,
    there: Formula,
    xs: &[(Word, Lit)],
    ys: &[(Word, Lit)],
) -> Result<(), AllocError>
    ensures { OnOk result (terms.new.items ≡ terms.old.items
        ++ differ_terms is_any_text bytes_eq there xs.now ys.now) }
{
    if !can_texts_differ(xs, ys) {
        return Ok(());
    }
    let same = same_texts(alloc, xs, ys)?;
    push_differ(alloc, terms, there, always(alloc), always(alloc), same)
}

// ---- compilers

// Two compilers, and the same; none is no compiler's same.
fn same_compilers(a: &Option<Compiler>, b: &Option<Compiler>) -> bool
    ensures { result ≡ same_compilers a.now b.now }
{
    match (a, b) {
        (Some(a), Some(b)) => same_compiler(a, b),
        (Some(_), None) => false,
        (None, _) => false,
    }
}

fn is_some_compiler(a: &Option<Compiler>) -> bool
    ensures { result ≡ is_some_compiler a.now }
{
    a.is_some()
}

fn compilers_differ(a: &Option<Compiler>, b: &Option<Compiler>) -> bool
    ensures { result ≡ differ is_some_compiler same_compilers a.now b.now }
{
    is_some_compiler(a) && is_some_compiler(b) && !same_compilers(a, b)
}

fn any_compiler(
    alloc: Global,
    compiler: &Option<Compiler>,
    ys: &[(Option<Compiler>, Lit)],
) -> Result<Formula, AllocError>
    ensures { IfOk result (λ formula. formula
        ≡ any_choice_on (same_compilers compiler.now) ys.now) }
{
    any_choice(alloc, ys, |y| same_compilers(compiler, y))
}

// For each compiler at one end: it is chosen, and the same at the other end.
fn same_compiler_parts(
    alloc: Global,
    xs: &[(Option<Compiler>, Lit)],
    ys: &[(Option<Compiler>, Lit)],
) -> Result<Vec<Formula>, AllocError>
    ensures { IfOk result (λ parts. parts.items
        ≡ map (λ x. both_statements (atom x.1) (any_choice_on (same_compilers x.0) ys.now))
        xs.now) }
{
    let mut parts = Vec::new(alloc);
    for x in xs {
        let same = any_compiler(alloc, &x.0, ys)?;
        parts.push(Formula::both(alloc, Formula::lit(x.1), same)?)?;
    }
    Ok(parts)
}

fn compiler_differs_from(x: &Option<Compiler>, ys: &[(Option<Compiler>, Lit)]) -> bool
    ensures { result ≡ list_any (λ y. differ is_some_compiler same_compilers x.now y.0) ys.now }
{
    ys.iter().any(|y| compilers_differ(x, &y.0))
}

fn can_compilers_differ(xs: &[(Option<Compiler>, Lit)], ys: &[(Option<Compiler>, Lit)]) -> bool
    ensures { result ≡ can_differ is_some_compiler same_compilers xs.now ys.now }
{
    xs.iter().any(|x| compiler_differs_from(&x.0, ys))
}

fn all_compilers(xs: &[(Option<Compiler>, Lit)]) -> bool
    ensures { result ≡ list_all (λ x. is_some_compiler x.0) xs.now }
{
    xs.iter().all(|x| is_some_compiler(&x.0))
}

// A compiler is chosen.
fn some_compiler(alloc: Global, xs: &[(Option<Compiler>, Lit)]) -> Result<Formula, AllocError>
    ensures { IfOk result (λ formula. formula
        ≡ filled_said is_some_compiler same_compilers xs.now) }
{
    if all_compilers(xs) {
        Ok(always(alloc))
    } else {
        any_choice(alloc, xs, |x| is_some_compiler(x))
    }
}

/// The term of an edge whose ends choose different compilers, unless they cannot.
pub fn push_compilers_differ(
    alloc: Global,
    terms: &mut Vec<Weighted>,
    there: Formula,
    xs: &[(Option<Compiler>, Lit)],
    ys: &[(Option<Compiler>, Lit)],
) -> Result<(), AllocError>
    ensures { OnOk result (terms.new.items ≡ terms.old.items
        ++ differ_terms is_some_compiler same_compilers there xs.now ys.now) }
{
    if !can_compilers_differ(xs, ys) {
        return Ok(());
    }
    let left = some_compiler(alloc, xs)?;
    let right = some_compiler(alloc, ys)?;
    let same = same_compiler_parts(alloc, xs, ys)?;
    push_differ(alloc, terms, there, left, right, same)
}

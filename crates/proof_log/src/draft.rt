//! The line that the numbers of a text would spell.

ghost use Rattle.std.specs.Prelude.{◌≡◌, IfOk, drop};
ghost use Rattle.proof_log.specs.Texts.{ids_of, lits_of, after_zero, value_at, draft};

use crate::Line;
use crate::fields::Field;
use clause_store::{Clause, Lit, Var};
use plain_data::List;
use std::alloc::{AllocError, Global};

fn value_at(fields: &[Field], place: usize) -> u64
    ensures { result ≡ value_at fields.now place }
{
    match fields.get(place) {
        Some(field) => field.value,
        None => 0,
    }
}

/// The fields from a place on; none where they end before it.
fn from(fields: &[Field], place: usize) -> &[Field]
    ensures { result.now ≡ drop place fields.now }
{
    match fields.get(place..) {
        Some(rest) => rest,
        None => &[],
    }
}

/// The numbers before the first 0.
fn ids_of(alloc: Global, fields: &[Field]) -> Result<List<u64>, AllocError>
    ensures { IfOk result (λ ids. ids ≡ ids_of fields.now) }
{
    let mut ids = List::new(alloc);
    for field in fields {
        if field.value == 0 {
            return Ok(ids);
        }
        ids.push(field.value)?;
    }
    Ok(ids)
}

/// The literals before the first 0.
fn lits_of(alloc: Global, fields: &[Field]) -> Result<Vec<Lit>, AllocError>
    ensures { IfOk result (λ lits. lits.items ≡ lits_of fields.now) }
{
    let mut lits = Vec::new(alloc);
    for field in fields {
        if field.value == 0 {
            return Ok(lits);
        }
        lits.push(Lit {
            var: Var(field.value - 1),
            positive: !field.minus,
        })?;
    }
    Ok(lits)
}

/// The fields after the first 0.
fn after_zero(fields: &[Field]) -> &[Field]
    ensures { result.now ≡ after_zero fields.now }
{
    for (place, field) in fields.iter().enumerate() {
        if field.value == 0 {
            return &fields[place + 1..];
        }
    }
    &[]
}

/// The line that a letter and the numbers after it would spell, if they spell one. The first of the
/// numbers is none of them.
pub(crate) fn draft(alloc: Global, letter: u8, fields: &[Field]) -> Result<Option<Line>, AllocError>
    ensures { IfOk result (λ line. line ≡ draft letter fields.now) }
{
    Ok(Some(match letter {
        b'p' => Line::Header {
            vars: value_at(fields, 2),
            clauses: value_at(fields, 3),
            bits: value_at(fields, 4),
        },
        b'l' => {
            let lits = lits_of(alloc, from(fields, 2))?;
            let Some(clause) = Clause::new(alloc, lits.as_slice())? else {
                return Ok(None);
            };
            Line::Learnt {
                id: value_at(fields, 1),
                clause,
                chain: ids_of(alloc, after_zero(from(fields, 2)))?,
            }
        }
        b'z' => Line::Zero {
            id: value_at(fields, 1),
            bit: value_at(fields, 2),
        },
        b'o' => Line::One {
            id: value_at(fields, 1),
            bit: value_at(fields, 2),
            chain: ids_of(alloc, from(fields, 3))?,
        },
        b'u' => Line::Unsat {
            chain: ids_of(alloc, from(fields, 1))?,
        },
        b's' => Line::Spent,
        b'e' => Line::End,
        _ => return Ok(None),
    }))
}

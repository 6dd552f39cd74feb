//! The text of a line, and the line of a text.

ghost use Rattle.std.specs.Prelude.{◌≡◌, ◌++◌, ◌∷◌, [], true, false, map, IfOk, OnOk, OnErr, nat_lt, ◌-◌, ◌^◌};
ghost use Rattle.std.specs.List.{list_all};
ghost use Rattle.clause_store.specs.Lits.{var_of};
ghost use Rattle.proof_log.specs.Texts.{of_lit, of_chain, fields, letter, line_text, is_chain, may_write, draft_of, line_of, AreWords, IsLine};
ghost use Rattle.proof_log.specs.Lines.{AllLines};
ghost use Rattle.proof_log.specs.Readings.{log_text, AreWritable};

use crate::Line;
use crate::draft::draft;
use crate::fields::{Field, read_fields, write_fields};
use clause_store::Lit;
use std::alloc::{AllocError, Global};

/// The letter that a line begins with.
fn letter(line: &Line) -> u8
    ensures { result ≡ letter line.now }
{
    match line {
        Line::Header { .. } => b'p',
        Line::Learnt { .. } => b'l',
        Line::Zero { .. } => b'z',
        Line::One { .. } => b'o',
        Line::Unsat { .. } => b'u',
        Line::Spent => b's',
        Line::End => b'e',
    }
}

fn is_chain(chain: &[u64]) -> bool
    ensures { result ≡ is_chain chain.now }
{
    !chain.is_empty() && chain.iter().all(|id| *id != 0)
}

/// Whether each variable's number from 1 is below 2 ^ 64.
fn have_numbers(lits: &[Lit]) -> bool
    ensures { result ≡ list_all (λ l. nat_lt (var_of l) (2 ^ 64 - 1)) lits.now }
{
    lits.iter().all(|lit| lit.var.0 < u64::MAX)
}

/// Whether the line may be written: its chain has an id and no id 0, and its variables have
/// numbers.
pub fn may_write(line: &Line) -> bool
    ensures { result ≡ may_write line.now }
{
    match line {
        Line::Learnt { clause, chain, .. } => {
            have_numbers(clause.lits()) && is_chain(chain.as_slice())
        }
        Line::One { chain, .. } | Line::Unsat { chain } => is_chain(chain.as_slice()),
        _ => true,
    }
}

fn push_number(fields: &mut Vec<Field>, value: u64) -> Result<(), AllocError>
    ensures { OnOk result (fields.new.items ≡ fields.old.items
        ++ record { minus = false; value = value } ∷ []) }
{
    fields.push(Field {
        minus: false,
        value,
    })?;
    Ok(())
}

fn push_chain(fields: &mut Vec<Field>, chain: &[u64]) -> Result<(), AllocError>
    ensures ok { OnOk result (fields.new.items ≡ fields.old.items ++ of_chain chain.now) }
    ensures typed { OnOk result (AreWords chain.now) }
{
    for id in chain {
        push_number(fields, *id)?;
    }
    push_number(fields, 0)
}

/// Appends literals as DIMACS numbers them: variables from 1 on, with a minus where they are
/// negated.
fn push_lits(fields: &mut Vec<Field>, lits: &[Lit]) -> Result<(), AllocError>
    requires { list_all (λ l. nat_lt (var_of l) (2 ^ 64 - 1)) lits.now ≡ true }
    ensures { OnOk result (fields.new.items ≡ fields.old.items ++ map of_lit lits.now) }
{
    for lit in lits {
        fields.push(Field {
            minus: !lit.positive,
            value: lit.var.0 + 1,
        })?;
    }
    Ok(())
}

/// The numbers of a line.
fn fields_of(alloc: Global, line: &Line) -> Result<Vec<Field>, AllocError>
    requires { may_write line.now ≡ true }
    ensures ok { IfOk result (λ v. v.items ≡ fields line.now) }
    ensures typed { OnOk result (IsLine line.now) }
{
    let mut fields = Vec::new(alloc);
    match line {
        Line::Header {
            vars,
            clauses,
            bits,
        } => {
            push_number(&mut fields, 1)?;
            push_number(&mut fields, *vars)?;
            push_number(&mut fields, *clauses)?;
            push_number(&mut fields, *bits)?;
            Ok(fields)
        }
        Line::Learnt { id, clause, chain } => {
            push_number(&mut fields, *id)?;
            push_lits(&mut fields, clause.lits())?;
            push_number(&mut fields, 0)?;
            push_chain(&mut fields, chain.as_slice())?;
            Ok(fields)
        }
        Line::Zero { id, bit } => {
            push_number(&mut fields, *id)?;
            push_number(&mut fields, *bit)?;
            Ok(fields)
        }
        Line::One { id, bit, chain } => {
            push_number(&mut fields, *id)?;
            push_number(&mut fields, *bit)?;
            push_chain(&mut fields, chain.as_slice())?;
            Ok(fields)
        }
        Line::Unsat { chain } => {
            push_chain(&mut fields, chain.as_slice())?;
            Ok(fields)
        }
        Line::Spent | Line::End => Ok(fields),
    }
}

/// The text of a line.
fn text_of(alloc: Global, line: &Line) -> Result<Vec<u8>, AllocError>
    requires { may_write line.now ≡ true }
    ensures ok { IfOk result (λ text. text.items ≡ line_text line.now) }
    ensures typed { OnOk result (IsLine line.now) }
{
    let mut text = Vec::new(alloc);
    text.push(letter(line))?;
    let fields = fields_of(alloc, line)?;
    write_fields(fields.as_slice(), &mut text)?;
    Ok(text)
}

/// Appends the text of a line, without a line feed. After an error `out` is as it was.
pub fn write_line(alloc: Global, line: &Line, out: &mut Vec<u8>) -> Result<(), AllocError>
    requires { may_write line.now ≡ true }
    ensures ok { OnOk result (out.new.items ≡ out.old.items ++ line_text line.now) }
    ensures typed { OnOk result (IsLine line.now) }
    ensures err { OnErr result (out.new.items ≡ out.old.items) }
{
    let text = text_of(alloc, line)?;
    out.extend_from_slice(text.as_slice())
}

/// The text of a log: each line, ended by a line feed.
pub fn log_text(alloc: Global, lines: &[Line]) -> Result<Vec<u8>, AllocError>
    requires { AllLines (λ l. may_write l ≡ true) lines.now }
    ensures text { IfOk result (λ text. text.items ≡ log_text lines.now) }
    ensures writable { OnOk result (AreWritable lines.now) }
{
    let mut text = Vec::new(alloc);
    for line in lines {
        write_line(alloc, line, &mut text)?;
        text.push(b'\n')?;
    }
    Ok(text)
}

/// The line that the numbers of a text would spell.
fn draft_of(alloc: Global, text: &[u8]) -> Result<Option<Line>, AllocError>
    ensures { IfOk result (λ line. line ≡ draft_of text.now) }
{
    let Some((letter, rest)) = text.split_first() else {
        return Ok(None);
    };
    match read_fields(alloc, rest)? {
        Some(fields) => draft(alloc, *letter, fields.as_slice()),
        None => Ok(None),
    }
}

/// The line that a text without a line feed spells: it is drafted, written and compared.
pub fn read_line(alloc: Global, text: &[u8]) -> Result<Option<Line>, AllocError>
    ensures { IfOk result (λ line. line ≡ line_of text.now) }
{
    let Some(line) = draft_of(alloc, text)? else {
        return Ok(None);
    };
    if !may_write(&line) {
        return Ok(None);
    }
    let written = text_of(alloc, &line)?;
    if written.as_slice() != text {
        return Ok(None);
    }
    Ok(Some(line))
}

//! A shorter log.
ghost use Rattle.std.specs.Prelude.{◌≡◌, ◌+◌, ◌^◌, ◌≤◌, length, IfOk, IfErr};
ghost use Rattle.log_trim.specs.Trimmed.{trimmed, shorter, IsSoundLog};

use crate::anew::{line_anew, own_names, push_anew};
use crate::lines::{has_spent, inputs_of};
use crate::marks::staying_of;
use proof_log::{Line, Log};
use std::alloc::{AllocError, Global};

/// How many ids there may be, with 0; beyond 64 bits want of memory.
fn size_for(inputs: u64, lines: usize) -> Result<usize, AllocError>
    ensures ok { IfOk result (λ size. size ≡ inputs + lines + 1) }
    ensures cause { IfErr result (λ _. 2 ^ 64 ≤ inputs + lines + 1) }
{
    let inputs = inputs as usize;
    match inputs.checked_add(lines).and_then(|all| all.checked_add(1)) {
        Some(size) => Ok(size),
        None => Err(AllocError),
    }
}

/// The lines that stay, with ids anew.
fn shorter(alloc: Global, lines: &[Line]) -> Result<Log, AllocError>
    requires { IsSoundLog lines.now }
    ensures { IfOk result (λ log. log ≡ shorter lines.now) }
{
    let mut log = Log::new(alloc);
    if let Some((first, rest)) = lines.split_first() {
        let inputs = inputs_of(first);
        let size = size_for(inputs, rest.len())?;
        let staying = staying_of(alloc, size, rest)?;
        let mut names = own_names(alloc, size)?;
        log.push(line_anew(alloc, names.as_slice(), 0, first)?)?;
        push_anew(
            alloc,
            &mut log,
            &mut names,
            inputs,
            rest,
            staying.as_slice(),
        )?;
    }
    Ok(log)
}

/// The log without the learnt lines whose clauses nothing rests on, and with ids anew: a line stays
/// that settles a bit or ends the log, and a learnt one whose clause is used by a line that stays
/// behind it. A log whose budget is spent stays as it is, since each of its learnt clauses counts.
///
/// Takes the lines and their chains twice, and a word for each clause, known or learnt.
pub fn trim(alloc: Global, log: Log) -> Result<Log, AllocError>
    requires { IsSoundLog log }
    ensures { IfOk result (λ short. short ≡ trimmed log) }
{
    if has_spent(log.lines()) {
        return Ok(log);
    }
    shorter(alloc, log.lines())
}

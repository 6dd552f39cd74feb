//! What a line says.
ghost use Rattle.std.specs.Prelude.{◌≡◌};
ghost use Rattle.log_trim.specs.Trimmed.{id_of, inputs_of, is_spent, has_spent};

use proof_log::Line;

/// The id of the clause that a line makes known.
pub fn id_of(line: &Line) -> Option<u64>
    ensures { result ≡ id_of line.now }
{
    match line {
        Line::Learnt { id, .. } => Some(*id),
        Line::Zero { id, .. } => Some(*id),
        Line::One { id, .. } => Some(*id),
        _ => None,
    }
}

/// The number of input clauses that a first line says.
pub fn inputs_of(line: &Line) -> u64
    ensures { result ≡ inputs_of line.now }
{
    match line {
        Line::Header { clauses, .. } => *clauses,
        _ => 0,
    }
}

fn is_spent(line: &Line) -> bool
    ensures { result ≡ is_spent line.now }
{
    match line {
        Line::Spent => true,
        _ => false,
    }
}

/// Whether a line says that a budget was spent.
pub fn has_spent(lines: &[Line]) -> bool
    ensures { result ≡ has_spent lines.now }
{
    for line in lines {
        if is_spent(line) {
            return true;
        }
    }
    false
}

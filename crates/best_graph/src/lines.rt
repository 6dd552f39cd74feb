//! What the lines of each log are, whatever they were made of.
ghost use Rattle.std.specs.Prelude.{◌<◌, ◌^◌};
ghost use Rattle.proof_log.specs.Lines.{AllLines};
ghost use Rattle.proof_log.specs.Texts.{AreWords, IsLine};

use proof_log::Line;

fn are_words(chain: &[u64])
    ensures { AreWords chain.now }
{
    for id in chain {
        let _ = id;
    }
}

fn is_word(number: u64)
    ensures { number < 2 ^ 64 }
{
    let _ = number;
}

fn is_line(line: &Line)
    ensures { IsLine line.now }
{
    match line {
        Line::Header {
            vars,
            clauses,
            bits,
        } => {
            is_word(*vars);
            is_word(*clauses);
            is_word(*bits);
        }
        Line::Learnt { id, clause, chain } => {
            is_word(*id);
            let _ = clause.lits();
            are_words(chain.as_slice());
        }
        Line::Zero { id, bit } => {
            is_word(*id);
            is_word(*bit);
        }
        Line::One { id, bit, chain } => {
            is_word(*id);
            is_word(*bit);
            are_words(chain.as_slice());
        }
        Line::Unsat { chain } => are_words(chain.as_slice()),
        Line::Spent | Line::End => (),
    }
}

/// The lines of a log are as their types say: numbers are below 2^64, and each clause has its
/// variables in rising order, each once.
pub(crate) fn right_lines(lines: &[Line])
    ensures { AllLines IsLine lines.now }
{
    for line in lines {
        is_line(line);
    }
}

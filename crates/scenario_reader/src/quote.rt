//! Quoted lines.

ghost use Rattle.std.specs.Prelude.{◌≡◌, ◌++◌, IfOk, OnOk};
ghost use Rattle.std.specs.List.{repeat};
ghost use Rattle.std.specs.Option.{option_map};
ghost use Rattle.scenario_reader.specs.Quotes.{acted, unquoted, unquote};

use crate::quote_step::{Act, Mode, at_end, next};
use plain_data::List;
use std::alloc::{AllocError, Global};

/// Adds bytes at the end so often.
fn append_times(bytes: &mut Vec<u8>, more: &[u8], times: u64) -> Result<(), AllocError>
    ensures { OnOk result (bytes.new.items ≡ bytes.old.items ++ repeat times more.now) }
{
    for _done in 0..times {
        bytes.extend_from_slice(more)?;
    }
    Ok(())
}

/// What was read of a quoted line.
#[derive(Drop)]
struct Quote {
    /// The bytes of the parts that are over.
    made: Vec<u8>,
    /// Those of the part at hand.
    part: Vec<u8>,
}

/// Does what a byte says.
fn act(quote: &mut Quote, act: Act) -> Result<(), AllocError>
    ensures { OnOk result ((quote.new.made.items, quote.new.part.items)
        ≡ acted act (quote.old.made.items, quote.old.part.items)) }
{
    match act {
        Act::Nothing => Ok(()),
        Act::Byte(b) => Ok(quote.part.push(b)?),
        Act::Times(times) => {
            append_times(&mut quote.made, quote.part.as_slice(), times)?;
            quote.part.clear();
            Ok(())
        }
    }
}

/// Reads a line into nothing, and answers how often its last part counts.
#[tactic(auto, using(crate::proofs::Steps::unquoted_at))]
fn read_parts(line: &[u8], quote: &mut Quote) -> Result<Option<u64>, AllocError>
    ensures { IfOk result (λ times. option_map
        (λ n. quote.new.made.items ++ repeat n quote.new.part.items) times ≡ unquoted Mode.Start
        (quote.old.made.items, quote.old.part.items) line.now) }
{
    let mut mode = Mode::Start;
    for b in line {
        let Some((after, what)) = next(mode, *b) else {
            return Ok(None);
        };
        act(quote, what)?;
        mode = after;
    }
    Ok(at_end(mode))
}

/// The bytes that a quoted line stands for; `None` where it is none.
#[tactic(auto, unfolding(crate::specs::Quotes::unquote))]
pub(crate) fn unquote(alloc: Global, line: &[u8]) -> Result<Option<List<u8>>, AllocError>
    ensures { IfOk result (λ bytes. bytes ≡ unquote line.now) }
{
    let mut quote = Quote {
        made: Vec::new(alloc),
        part: Vec::new(alloc),
    };
    match read_parts(line, &mut quote)? {
        Some(times) => {
            append_times(&mut quote.made, quote.part.as_slice(), times)?;
            Ok(Some(List::from_vec(quote.made)))
        }
        None => Ok(None),
    }
}

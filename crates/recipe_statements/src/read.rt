//! The call of this crate.

ghost use Rattle.std.specs.Prelude.{◌≡◌, Ok, IfOk, IfErr};
ghost use Rattle.recipe_statements.specs.Statements.{items, Fails};

use crate::reader::{Reader, read};
use crate::{ClassItem, StatementFault};
use plain_data::List;
use recipe_lexer::Token;
use std::alloc::Global;

/// The items of a file with these tokens in their order, or its first fault.
///
/// Outside the class everything is passed over that may stand there: lines of strings alone, `import` and
/// `from` lines, assignments (a word, and then `=`), decorators (lines that begin with `@`), `pass`, `def` with
/// its block or line, a class whose name ends in `Builder` with its block, and the calls of `license`,
/// `maintainers`, `patch`, `resource` and `filter_compiler_wrappers`. There is one other class. Its block holds
/// the same, the calls of directives, and `with when(TEXT):` with a block of such statements. The tokens are
/// those that `lex` gave of these bytes.
#[tactic(auto, unfolding(crate::specs::Statements::items))]
pub fn statements(
    alloc: Global,
    bytes: &[u8],
    tokens: &[Token],
) -> Result<List<ClassItem>, StatementFault>
    ensures found { IfOk result (λ found. items bytes.now tokens.now ≡ Ok found) }
    ensures fault { IfErr result (λ fault. Fails fault (items bytes.now tokens.now)) }
{
    let mut reader = Reader {
        seen: false,
        level: 0,
        passed: 0,
        first: 0,
        items: Vec::new(alloc),
    };
    match read(&mut reader, bytes, tokens) {
        Ok(()) if reader.seen => Ok(List::from_vec(reader.items)),
        Ok(()) => Err(StatementFault::NoClass),
        Err(fault) => Err(fault),
    }
}

//! The lines of a file, one after the other.

ghost use Rattle.std.specs.Prelude.{◌≡◌, ℕ, ◌<◌, ◌≤◌, ◌+◌, ◌^◌, length, if◌then◌else◌, OnOk};
ghost use Rattle.recipe_statements.specs.Blocks.{begins_block};
ghost use Rattle.recipe_statements.specs.Statements.{start_of, last};
ghost use Rattle.recipe_statements.specs.Inside.{view, Gives, Ends, took_plain, took_class, took_when, took_headed, took, closed, stepped, whole};

use crate::form::{HeadForm, PlainForm, head_form, plain_form};
use crate::{ClassItem, StatementFault};
use recipe_lexer::{Token, TokenKind};

/// How many `with when` heads may stand inside each other.
const DEEPEST: u64 = 16;

/// What stands between two tokens.
#[derive(Debug, Drop)]
pub(crate) struct Reader {
    /// Whether a class was seen.
    pub seen: bool,
    /// 0 at the outer level, else one more than the heads that the line stands in.
    pub level: u64,
    /// How many open blocks are passed over.
    pub passed: u64,
    /// The place of the line's first token.
    pub first: usize,
    /// The items so far.
    pub items: Vec<ClassItem>,
}

/// The byte at which a line starts.
fn start_of(line: &[Token]) -> u64
    ensures { result ≡ start_of line.now }
{
    match line {
        [] => 0,
        [t, ..] => t.start,
    }
}

/// The place of a line's last token.
fn last(first: usize, line: &[Token]) -> u64
    requires { first + length line.now < 2 ^ 64 }
    ensures { result ≡ last (record { first = first; tokens = line.now }) }
{
    (first + line.len()).saturating_sub(1) as u64
}

/// A line without a block.
fn take_plain(
    reader: &mut Reader,
    form: PlainForm,
    first: usize,
    line: &[Token],
) -> Result<(), StatementFault>
    requires { first + length line.now < 2 ^ 64 }
    ensures room { reader.new.passed ≡ reader.old.passed }
    ensures step { Gives result reader.new
        (took_plain form (record { first = first; tokens = line.now }) (view reader.old)) }
{
    match form {
        PlainForm::Passed => Ok(()),
        PlainForm::Directive if reader.level > 0 => {
            reader.items.push(ClassItem::Call {
                first: first as u64,
                last: last(first, line),
                depth: reader.level - 1,
            })?;
            Ok(())
        }
        _ => Err(StatementFault::Unsupported(start_of(line))),
    }
}

/// The head of a class at the outer level, which starts at this byte.
fn take_class(reader: &mut Reader, start: u64) -> Result<(), StatementFault>
    ensures room { reader.new.passed ≡ reader.old.passed }
    ensures step { Gives result reader.new (took_class start (view reader.old)) }
{
    if reader.seen {
        return Err(StatementFault::TwoClasses(start));
    }
    reader.seen = true;
    reader.level = 1;
    Ok(())
}

/// The head of a `with when` block in the class.
fn take_when(reader: &mut Reader, first: usize, line: &[Token]) -> Result<(), StatementFault>
    requires room { first + length line.now < 2 ^ 64 }
    requires inside { 0 < reader.old.level }
    ensures room { reader.new.passed ≡ reader.old.passed }
    ensures step { Gives result reader.new
        (took_when (record { first = first; tokens = line.now }) (view reader.old)) }
{
    let depth = reader.level - 1;
    if depth >= DEEPEST {
        return Err(StatementFault::TooDeep(start_of(line)));
    }
    reader.level = depth + 2;
    reader.items.push(ClassItem::With {
        first: first as u64,
        last: last(first, line),
        depth,
    })?;
    Ok(())
}

/// A line whose block follows.
fn take_headed(
    reader: &mut Reader,
    form: HeadForm,
    first: usize,
    line: &[Token],
) -> Result<(), StatementFault>
    requires { first + length line.now < 2 ^ 64 }
    ensures room { reader.new.passed ≤ reader.old.passed + 1 }
    ensures step { Gives result reader.new
        (took_headed form (record { first = first; tokens = line.now }) (view reader.old)) }
{
    match form {
        HeadForm::Passed => {
            reader.passed = 1;
            Ok(())
        }
        HeadForm::Class if reader.level == 0 => take_class(reader, start_of(line)),
        HeadForm::When if reader.level > 0 => take_when(reader, first, line),
        _ => Err(StatementFault::Unsupported(start_of(line))),
    }
}

/// Counts a block that is passed over.
fn pass_block(reader: &mut Reader, has_block: bool)
    requires { reader.old.passed + 1 < 2 ^ 64 }
    ensures { view reader.new ≡ record (view reader.old) {
      passed =
          if has_block then reader.old.passed + 1 else reader.old.passed;
    } }
{
    if has_block {
        reader.passed += 1;
    }
}

/// A line ends.
#[tactic(auto, unfolding(crate::specs::Inside::took))]
fn take_line(
    reader: &mut Reader,
    bytes: &[u8],
    first: usize,
    line: &[Token],
    has_block: bool,
) -> Result<(), StatementFault>
    requires place { first + length line.now < 2 ^ 64 }
    requires room { reader.old.passed + 1 < 2 ^ 64 }
    ensures room { reader.new.passed ≤ reader.old.passed + 1 }
    ensures step { Gives result reader.new
        (took bytes.now (record { first = first; tokens = line.now }) has_block (view reader.old)) }
{
    if reader.passed > 0 {
        pass_block(reader, has_block);
        return Ok(());
    }
    if has_block {
        return take_headed(reader, head_form(bytes, line), first, line);
    }
    take_plain(reader, plain_form(bytes, line), first, line)
}

/// A block ends.
#[tactic(auto, unfolding(crate::specs::Inside::closed))]
fn close(reader: &mut Reader)
    ensures room { reader.new.passed ≤ reader.old.passed }
    ensures state { view reader.new ≡ closed (view reader.old) }
{
    if reader.passed > 0 {
        reader.passed -= 1;
    } else {
        reader.level = reader.level.saturating_sub(1);
    }
}

/// Whether a block begins here.
fn begins(tokens: &[Token]) -> bool
    ensures { result ≡ begins_block tokens.now }
{
    match tokens {
        [] => false,
        [t, ..] => matches!(t.kind, TokenKind::Indent),
    }
}

/// A token, which is the one at place `i`.
fn take_token(
    reader: &mut Reader,
    bytes: &[u8],
    tokens: &[Token],
    i: usize,
    kind: TokenKind,
) -> Result<(), StatementFault>
    requires place { i < length tokens.now }
    requires first { reader.old.first ≤ i }
    requires room { reader.old.passed ≤ i }
    ensures step { Gives result reader.new (stepped bytes.now tokens.now i kind (view reader.old)) }
    ensures first { OnOk result (reader.new.first ≤ i + 1) }
    ensures room { OnOk result (reader.new.passed ≤ i + 1) }
{
    let first = reader.first;
    match kind {
        TokenKind::NewLine => {
            let has_block = begins(&tokens[i + 1..]);
            let done = take_line(reader, bytes, first, &tokens[first..i], has_block);
            reader.first = i + 1;
            done
        }
        TokenKind::Indent => {
            reader.first = i + 1;
            Ok(())
        }
        TokenKind::Dedent => {
            close(reader);
            reader.first = i + 1;
            Ok(())
        }
        _ => Ok(()),
    }
}

/// All tokens.
pub(crate) fn read(
    reader: &mut Reader,
    bytes: &[u8],
    tokens: &[Token],
) -> Result<(), StatementFault>
    requires first { reader.old.first ≡ 0 }
    requires room { reader.old.passed ≡ 0 }
    ensures { Ends result reader.new (whole bytes.now tokens.now 0 (view reader.old)) }
{
    for (i, token) in tokens.iter().enumerate() {
        match take_token(reader, bytes, tokens, i, token.kind) {
            Ok(()) => {}
            Err(fault) => return Err(fault),
        }
    }
    Ok(())
}

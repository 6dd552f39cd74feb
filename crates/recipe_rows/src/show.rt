//! What the stages answer, as texts.

use recipe_lexer::{LexFault, Token, TokenKind};
use recipe_statements::{ClassItem, StatementFault};
use spec_grammar::{Form, SpecFault};
use std::alloc::{AllocError, Global};

fn push_sign(alloc: Global, out: &mut String, b: u8) -> Result<(), AllocError> {
    if b.is_ascii_graphic() {
        return out.push(char::from(b));
    }
    out.push_str(format!(in alloc; "Op{b}")?.as_str())
}

fn push_kind(alloc: Global, out: &mut String, kind: TokenKind) -> Result<(), AllocError> {
    match kind {
        TokenKind::Word => out.push_str("Word"),
        TokenKind::Text => out.push_str("Text"),
        TokenKind::Op(b) => push_sign(alloc, out, b),
        TokenKind::NewLine => out.push_str("NewLine"),
        TokenKind::Indent => out.push_str("Indent"),
        TokenKind::Dedent => out.push_str("Dedent"),
        TokenKind::End => out.push_str("End"),
    }
}

fn push_token(alloc: Global, out: &mut String, token: Token) -> Result<(), AllocError> {
    push_kind(alloc, out, token.kind)?;
    let Token { start, end, .. } = token;
    out.push_str(format!(in alloc; "@{start}-{end} ")?.as_str())
}

/// A fault of the first stage, as `OpenString 30`.
pub(crate) fn lex_fault_text(alloc: Global, fault: LexFault) -> Result<String, AllocError> {
    match fault {
        LexFault::NotUtf8 => String::from_str(alloc, "NotUtf8"),
        LexFault::OpenString(place) => format!(in alloc; "OpenString {place}"),
        LexFault::OpenBracket(place) => format!(in alloc; "OpenBracket {place}"),
        LexFault::BadIndent(place) => format!(in alloc; "BadIndent {place}"),
        LexFault::OutOfMemory => String::from_str(alloc, "OutOfMemory"),
    }
}

/// Tokens, as `Word@0-5 (@7-8`.
pub(crate) fn tokens_text(alloc: Global, tokens: &[Token]) -> Result<String, AllocError> {
    let mut out = String::new(alloc);
    for token in tokens {
        push_token(alloc, &mut out, *token)?;
    }
    Ok(out)
}

fn push_item(alloc: Global, out: &mut String, item: ClassItem) -> Result<(), AllocError> {
    match item {
        ClassItem::With { first, last, depth } => {
            out.push_str(format!(in alloc; "With@{first}-{last}/{depth} ")?.as_str())
        }
        ClassItem::Call { first, last, depth } => {
            out.push_str(format!(in alloc; "Call@{first}-{last}/{depth} ")?.as_str())
        }
    }
}

/// Items, as `With@8-13/0 Call@16-19/1`.
pub(crate) fn items_text(alloc: Global, items: &[ClassItem]) -> Result<String, AllocError> {
    if items.is_empty() {
        return String::from_str(alloc, "none");
    }
    let mut out = String::new(alloc);
    for item in items {
        push_item(alloc, &mut out, *item)?;
    }
    Ok(out)
}

/// A fault of the second stage, as `Unsupported 30`.
pub(crate) fn statement_fault_text(
    alloc: Global,
    fault: StatementFault,
) -> Result<String, AllocError> {
    match fault {
        StatementFault::Unsupported(place) => format!(in alloc; "Unsupported {place}"),
        StatementFault::NoClass => String::from_str(alloc, "NoClass"),
        StatementFault::TwoClasses(place) => format!(in alloc; "TwoClasses {place}"),
        StatementFault::TooDeep(place) => format!(in alloc; "TooDeep {place}"),
        StatementFault::OutOfMemory => String::from_str(alloc, "OutOfMemory"),
    }
}

fn form_text(form: Form) -> &'static str {
    match form {
        Form::Propagation => "Propagation",
        Form::ConcreteAssign => "ConcreteAssign",
        Form::AnyValue => "AnyValue",
        Form::Quoted => "Quoted",
        Form::Flags => "Flags",
        Form::Reference => "Reference",
        Form::EdgeAttributes => "EdgeAttributes",
        Form::Namespace => "Namespace",
        Form::NestedDependency => "NestedDependency",
        Form::ProvidesForm => "ProvidesForm",
    }
}

/// A fault of a spec, as `Expected 3`.
pub(crate) fn spec_fault_text(alloc: Global, fault: SpecFault) -> Result<String, AllocError> {
    match fault {
        SpecFault::Expected(place) => format!(in alloc; "Expected {place}"),
        SpecFault::Unsupported(place, form) => {
            let text = form_text(form);
            format!(in alloc; "Unsupported {place} {text}")
        }
        SpecFault::BadVersion(place) => format!(in alloc; "BadVersion {place}"),
        SpecFault::TwiceSet(place) => format!(in alloc; "TwiceSet {place}"),
        SpecFault::OutOfMemory => String::from_str(alloc, "OutOfMemory"),
    }
}

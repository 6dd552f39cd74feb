//! The stages, and what they answer to a text.

use crate::files::files_text;
use crate::show::{items_text, lex_fault_text, statement_fault_text, tokens_text};
use crate::show_recipe::{recipe_fault_text, recipe_text};
use crate::values::values_text;
use plain_data::List;
use recipe_lexer::{Token, lex};
use recipe_reader::read_recipe;
use recipe_statements::statements;
use std::alloc::{AllocError, Global};
use std::thread::Threads;

/// What is shown of a text.
#[derive(Clone, Copy)]
pub(crate) enum Stage {
    /// Its tokens.
    Tokens,
    /// Its items.
    Items,
    /// The arguments in the brackets that it is.
    Values,
    /// Its recipe.
    Recipe,
    /// The recipes of the files in it, read by so many threads.
    Files(u64),
    /// How many tokens and items it has.
    Count,
}

fn of_tokens(
    alloc: Global,
    stage: Stage,
    bytes: &[u8],
    tokens: &List<Token>,
) -> Result<String, AllocError> {
    if let Stage::Tokens = stage {
        return tokens_text(alloc, tokens.as_slice());
    }
    if let Stage::Values = stage {
        return values_text(alloc, bytes, tokens.as_slice());
    }
    let items = match statements(alloc, bytes, tokens.as_slice()) {
        Ok(items) => items,
        Err(fault) => return statement_fault_text(alloc, fault),
    };
    if let Stage::Items = stage {
        return items_text(alloc, items.as_slice());
    }
    let (many, few) = (tokens.len(), items.len());
    format!(in alloc; "{many} tokens, {few} items")
}

fn of_recipe(alloc: Global, bytes: &[u8]) -> Result<String, AllocError> {
    match read_recipe(alloc, "x", bytes) {
        Ok(recipe) => recipe_text(alloc, &recipe),
        Err(fault) => recipe_fault_text(alloc, fault),
    }
}

/// What a stage answers to a text, or the first fault.
pub(crate) fn answer<R: AllocGlobal + Threads + Sync>(
    rt: &R,
    stage: Stage,
    bytes: &[u8],
) -> Result<String, AllocError> {
    let alloc = rt.alloc();
    if let Stage::Files(threads) = stage {
        return files_text(rt, threads, bytes);
    }
    if let Stage::Recipe = stage {
        return of_recipe(alloc, bytes);
    }
    match lex(alloc, bytes) {
        Ok(tokens) => of_tokens(alloc, stage, bytes, &tokens),
        Err(fault) => lex_fault_text(alloc, fault),
    }
}

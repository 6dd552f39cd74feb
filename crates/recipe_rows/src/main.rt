//! Rows of recipes: what the stages of reading make of texts, compared with tables.
//!
//! Without words it goes over the tables that lie where it runs, and prints each row that differs
//! and how many there are. With `tokens FILE..`, `items FILE..`, `values FILE..` or `recipe FILE..`
//! it prints what a stage makes of the files instead, a line each, and with `count FILE..` how many
//! tokens and items each has.
//! The answers in the tables come from the rules, never from what the crates answer.
//! It stands on the stages that it shows. Nothing stands on it.
#![tactic(auto)]

mod escape;
mod files;
mod show;
mod show_recipe;
mod stage;
mod table;
mod values;

use crate::stage::{Stage, answer};
use crate::table::go_over;
use std::rt::Files;
use std::thread::Threads;
use std::{env, fs, io};

fn stage_of(word: &str) -> Stage {
    match word {
        "tokens" => Stage::Tokens,
        "items" => Stage::Items,
        "values" => Stage::Values,
        "recipe" => Stage::Recipe,
        _ => Stage::Count,
    }
}

fn print_file<R: Files + AllocGlobal + Print + Threads + Sync>(
    rt: &R,
    stage: Stage,
    path: &str,
) -> io::Result<()> {
    let bytes = fs::read(rt, path)?;
    let text = answer(rt, stage, &bytes)?;
    println!(rt; "{text}")
}

fn main(rt: HostRuntime) -> io::Result<()> {
    let words: Vec<String> = env::args(&rt)?.skip(1).collect(rt.alloc())?;
    let Some((word, paths)) = words.split_first() else {
        go_over(&rt, Stage::Tokens, "tokens.txt")?;
        go_over(&rt, Stage::Items, "items.txt")?;
        go_over(&rt, Stage::Values, "values.txt")?;
        go_over(&rt, Stage::Recipe, "recipes.txt")?;
        for threads in [0, 1, 2, 3, 8, 100] {
            go_over(&rt, Stage::Files(threads), "files.txt")?;
        }
        return Ok(());
    };
    for path in paths {
        print_file(&rt, stage_of(word.as_str()), path.as_str())?;
    }
    Ok(())
}

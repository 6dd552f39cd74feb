// What is asked of a graph, answered as text.

use cost_vector::vector;
use graph_core::{Edge, Graph};
use graph_judge::{judge, judge_for};
use graph_rules::Verdict;
use problem::Problem;
use std::alloc::{AllocError, Global};

fn verdict_text(alloc: Global, said: &Verdict) -> Result<String, AllocError> {
    match said {
        Verdict::Valid => String::from_str(alloc, "Valid"),
        Verdict::Broken {
            rule,
            node,
            directive,
        } => format!(in alloc; "Broken {rule:?} {node} {directive}"),
    }
}

pub fn judge_text(alloc: Global, problem: &Problem, graph: &Graph) -> Result<String, AllocError> {
    let said = judge(alloc, problem, graph)?;
    verdict_text(alloc, &said)
}

pub fn judged_text(
    alloc: Global,
    problem: &Problem,
    graph: &Graph,
    words: &[&str],
) -> Result<String, AllocError> {
    let mut ids = Vec::new(alloc);
    for word in words {
        if let Ok(id) = word.parse::<u64>() {
            ids.push(id)?;
        }
    }
    let said = judge_for(alloc, problem, graph, ids.as_slice())?;
    verdict_text(alloc, &said)
}

/// The numbers that are not 0, each behind its place from 1.
pub fn vector_text(alloc: Global, problem: &Problem, graph: &Graph) -> Result<String, AllocError> {
    let numbers = vector(alloc, problem, graph)?;
    let mut text = String::from_str(alloc, "V")?;
    for (i, number) in numbers.iter().enumerate() {
        if *number > 0 {
            let part = format!(in alloc; " {}:{number}", i + 1)?;
            text.push_str(part.as_str())?;
        }
    }
    Ok(text)
}

fn add_names(alloc: Global, text: &mut String, edge: &Edge) -> Result<(), AllocError> {
    let ends = format!(in alloc; " {}-{}:", edge.parent, edge.child)?;
    text.push_str(ends.as_str())?;
    for (i, name) in edge.virtuals.values().iter().enumerate() {
        if i > 0 {
            text.push_str(",")?;
        }
        text.push_str(name.as_str())?;
    }
    Ok(())
}

/// What each edge names.
pub fn names_text(alloc: Global, graph: &Graph) -> Result<String, AllocError> {
    let mut text = String::from_str(alloc, "N")?;
    for edge in graph.edges() {
        add_names(alloc, &mut text, edge)?;
    }
    Ok(text)
}

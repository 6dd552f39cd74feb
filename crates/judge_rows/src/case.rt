// What the lines gave so far, and what one line more does.

use crate::ask::{judge_text, judged_text, names_text, vector_text};
use crate::draft::Draft;
use crate::made::node_of;
use crate::read::{kinds_of, values_of};
use graph_core::{Edge, Graph};
use graph_judge::name_virtuals;
use plain_data::Word;
use problem::Problem;
use reuse_db::Record;
use std::alloc::{AllocError, Global};
use std::thread::Threads;

/// The parts of the next problem, the problem that was put together last, and the graph.
#[derive(Drop)]
pub struct Case {
    draft: Draft,
    problem: Option<Problem>,
    graph: Graph,
}

fn answered(alloc: Global, taken: bool) -> Result<Option<String>, AllocError> {
    if taken {
        Ok(None)
    } else {
        Ok(Some(String::from_str(alloc, "no")?))
    }
}

impl Case {
    pub fn new(alloc: Global) -> Case {
        Case {
            draft: Draft::new(alloc),
            problem: None,
            graph: Graph::new(alloc),
        }
    }

    fn begin_graph(&mut self, alloc: Global) {
        drop(std::mem::replace(&mut self.graph, Graph::new(alloc)));
    }

    fn put_together<R: Threads + Sync>(
        &mut self,
        rt: &R,
        alloc: Global,
    ) -> Result<bool, AllocError> {
        self.begin_graph(alloc);
        let problem = self.draft.problem(rt, alloc)?;
        self.draft.clear(alloc);
        let is_there = problem.is_some();
        drop(std::mem::replace(&mut self.problem, problem));
        Ok(is_there)
    }

    // The records of the problem, or of the next one.
    fn records(&self) -> &[Record] {
        match &self.problem {
            Some(problem) => problem.database().records(),
            None => self.draft.records(),
        }
    }

    fn add_node(
        &mut self,
        alloc: Global,
        name: &str,
        version: &str,
        items: &[&str],
    ) -> Result<bool, AllocError> {
        match node_of(alloc, self.records(), name, version, items)? {
            Some(node) => self.graph.add_node(node),
            None => Ok(false),
        }
    }

    fn add_record(
        &mut self,
        alloc: Global,
        name: &str,
        version: &str,
        children: &[&str],
    ) -> Result<bool, AllocError> {
        let dependencies = self.draft.children(alloc, children)?;
        match node_of(alloc, &[], name, version, &[])? {
            Some(node) => {
                self.draft.add_record(alloc, node, dependencies)?;
                Ok(true)
            }
            None => Ok(false),
        }
    }

    fn add_edge(
        &mut self,
        alloc: Global,
        parent: &str,
        child: &str,
        letters: &str,
        texts: &str,
    ) -> Result<bool, AllocError> {
        self.graph.add_edge(Edge {
            parent: Word::new(alloc, parent)?,
            child: Word::new(alloc, child)?,
            kinds: kinds_of(letters),
            virtuals: values_of(alloc, texts)?,
        })
    }

    fn set_provider(
        &mut self,
        alloc: Global,
        name: &str,
        package: &str,
    ) -> Result<bool, AllocError> {
        self.graph
            .set_provider(Word::new(alloc, name)?, Word::new(alloc, package)?)
    }

    // The graph as one of the first version of a lock file is read.
    fn name_edges(&mut self, alloc: Global) -> Result<bool, AllocError> {
        let Some(problem) = &self.problem else {
            return Ok(false);
        };
        let named = name_virtuals(alloc, problem, &self.graph)?;
        drop(std::mem::replace(&mut self.graph, named));
        Ok(true)
    }

    // Lines that ask.
    fn ask(&self, alloc: Global, words: &[&str]) -> Result<Option<String>, AllocError> {
        let Some(problem) = &self.problem else {
            return answered(alloc, false);
        };
        match words {
            [what] if *what == "judge" => Ok(Some(judge_text(alloc, problem, &self.graph)?)),
            [what] if *what == "names" => Ok(Some(names_text(alloc, &self.graph)?)),
            [what] if *what == "vector" => Ok(Some(vector_text(alloc, problem, &self.graph)?)),
            [what, how, ids @ ..] if *what == "judge" && *how == "for" => {
                Ok(Some(judged_text(alloc, problem, &self.graph, ids)?))
            }
            _ => answered(alloc, false),
        }
    }

    // Lines of a graph.
    fn take_words<R: Threads + Sync>(
        &mut self,
        rt: &R,
        alloc: Global,
        words: &[&str],
    ) -> Result<Option<String>, AllocError> {
        match words {
            [] => Ok(None),
            [what] if *what == "problem" => {
                let taken = self.put_together(rt, alloc)?;
                answered(alloc, taken)
            }
            [what] if *what == "same" => {
                self.begin_graph(alloc);
                Ok(None)
            }
            [what, name, version, items @ ..] if *what == "node" => {
                let taken = self.add_node(alloc, name, version, items)?;
                answered(alloc, taken)
            }
            [what, name, version, children @ ..] if *what == "record" => {
                let taken = self.add_record(alloc, name, version, children)?;
                answered(alloc, taken)
            }
            [what, parent, child, letters] if *what == "edge" => {
                let taken = self.add_edge(alloc, parent, child, letters, "")?;
                answered(alloc, taken)
            }
            [what, parent, child, letters, texts] if *what == "edge" => {
                let taken = self.add_edge(alloc, parent, child, letters, texts)?;
                answered(alloc, taken)
            }
            [what] if *what == "name" => {
                let taken = self.name_edges(alloc)?;
                answered(alloc, taken)
            }
            [what, name, package] if *what == "provider" => {
                let taken = self.set_provider(alloc, name, package)?;
                answered(alloc, taken)
            }
            _ => self.ask(alloc, words),
        }
    }

    // Lines of a problem, whose last part has spaces.
    fn take_part(
        &mut self,
        alloc: Global,
        what: &str,
        rest: &str,
    ) -> Result<Option<bool>, AllocError> {
        match what {
            "recipe" => {
                let (name, lines) = rest.split_once(' ').unwrap_or((rest, "pass"));
                self.draft.add_recipe(alloc, name, lines)?;
                Ok(Some(true))
            }
            "settings" => Ok(Some(self.draft.set_settings(alloc, rest)?)),
            "roots" => Ok(Some(self.draft.set_roots(alloc, rest)?)),
            _ => Ok(None),
        }
    }

    /// Takes a line; what it answers.
    pub fn take_line<R: Threads + Sync>(
        &mut self,
        rt: &R,
        alloc: Global,
        line: &str,
    ) -> Result<Option<String>, AllocError> {
        let (what, rest) = line.split_once(' ').unwrap_or((line, ""));
        if what == "#" {
            return Ok(Some(String::from_str(alloc, line)?));
        }
        if let Some(taken) = self.take_part(alloc, what, rest)? {
            return answered(alloc, taken);
        }
        let words: Vec<&str> = line.split_whitespace().collect(alloc)?;
        self.take_words(rt, alloc, words.as_slice())
    }
}

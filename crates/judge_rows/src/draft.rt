// The parts of a problem, as lines give them.
ghost use Rattle.std.specs.Prelude.{◌≡◌, true, is_some, IfOk, IfSome};
ghost use Rattle.std.specs.List.{list_all};
ghost use Rattle.recipe_data.specs.Right.{is_right_recipe};
ghost use Rattle.virtuals.specs.Virtuals.{AreInOrder};

use crate::made::{children_of, record_of, set_hash};
use crate::parts::{are_in_order, are_named};
use crate::read::recipe_text;
use graph_core::Node;
use plain_data::{List, Word};
use problem::{Problem, ProblemFault, assemble};
use recipe_data::Recipe;
use recipe_reader::{RecipeFault, RecipeFile, read_recipes};
use reuse_db::{Database, DbFault, Dependency, Record};
use settings_reader::{SettingsFault, read_settings};
use site_settings::Settings;
use spec_grammar::{Spec, SpecFault, read_specs};
use std::alloc::{AllocError, Global};
use std::thread::Threads;

/// What was given so far.
#[derive(Drop)]
pub struct Draft {
    files: Vec<RecipeFile>,
    // The standard settings where there are none.
    settings: Option<Settings>,
    records: List<Record>,
    roots: List<Spec>,
}

fn recipes_of<R: Threads + Sync>(
    rt: &R,
    alloc: Global,
    files: &[RecipeFile],
) -> Result<Option<List<Recipe>>, AllocError>
    ensures { IfOk result (λ recipes. IfSome recipes
        (λ recipes. list_all is_right_recipe recipes ≡ true)) }
{
    match read_recipes(rt, alloc, files) {
        Ok(recipes) => Ok(Some(recipes)),
        Err((_, RecipeFault::OutOfMemory)) => Err(AllocError),
        Err(_) => Ok(None),
    }
}

fn database_of(alloc: Global, records: List<Record>) -> Result<Option<Database>, AllocError> {
    match Database::from_records(alloc, records) {
        Ok(database) => Ok(Some(database)),
        Err(DbFault::OutOfMemory) => Err(AllocError),
        Err(_) => Ok(None),
    }
}

fn assembled(
    alloc: Global,
    recipes: List<Recipe>,
    settings: Settings,
    database: Database,
    roots: List<Spec>,
) -> Result<Option<Problem>, AllocError>
    requires order { AreInOrder recipes }
    requires right { list_all is_right_recipe recipes ≡ true }
    requires named { list_all (λ spec. is_some spec.top.name) roots ≡ true }
{
    match assemble(alloc, recipes, settings, database, roots) {
        Ok(problem) => Ok(Some(problem)),
        Err(ProblemFault::OutOfMemory) => Err(AllocError),
        Err(_) => Ok(None),
    }
}

// Each part is dropped whole, and at one place.
impl Draft {
    pub fn new(alloc: Global) -> Draft {
        Draft {
            files: Vec::new(alloc),
            settings: None,
            records: List::new(alloc),
            roots: List::new(alloc),
        }
    }

    pub fn add_recipe(&mut self, alloc: Global, name: &str, lines: &str) -> Result<(), AllocError> {
        let bytes = recipe_text(alloc, lines)?.into_bytes();
        let name = Word::new(alloc, name)?;
        self.files.push(RecipeFile { name, bytes })?;
        Ok(())
    }

    pub fn set_settings(&mut self, alloc: Global, text: &str) -> Result<bool, AllocError> {
        match read_settings(alloc, text.as_bytes()) {
            Ok(settings) => {
                drop(std::mem::replace(&mut self.settings, Some(settings)));
                Ok(true)
            }
            Err(SettingsFault::OutOfMemory) => Err(AllocError),
            Err(_) => Ok(false),
        }
    }

    pub fn set_roots(&mut self, alloc: Global, text: &str) -> Result<bool, AllocError> {
        match read_specs(alloc, text) {
            Ok(roots) => {
                drop(std::mem::replace(&mut self.roots, roots));
                Ok(true)
            }
            Err(SpecFault::OutOfMemory) => Err(AllocError),
            Err(_) => Ok(false),
        }
    }

    pub fn records(&self) -> &[Record] {
        self.records.as_slice()
    }

    /// What a record depends on, by the names of earlier ones.
    pub fn children(&self, alloc: Global, words: &[&str]) -> Result<List<Dependency>, AllocError> {
        children_of(alloc, self.records.as_slice(), words)
    }

    /// Adds the record of a node.
    pub fn add_record(
        &mut self,
        alloc: Global,
        node: Node,
        dependencies: List<Dependency>,
    ) -> Result<(), AllocError> {
        let mut entry = record_of(node, dependencies);
        let hashed = set_hash(alloc, &mut entry);
        match hashed {
            Ok(()) => {
                self.records.push(entry)?;
                Ok(())
            }
            Err(fault) => {
                drop(entry);
                Err(fault)
            }
        }
    }

    /// Takes back what was given.
    pub fn clear(&mut self, alloc: Global) {
        self.files.clear();
        drop(self.settings.take());
        drop(std::mem::replace(&mut self.records, List::new(alloc)));
        drop(std::mem::replace(&mut self.roots, List::new(alloc)));
    }

    /// The problem of these parts, where they may be put together, which takes them.
    pub fn problem<R: Threads + Sync>(
        &mut self,
        rt: &R,
        alloc: Global,
    ) -> Result<Option<Problem>, AllocError> {
        match recipes_of(rt, alloc, self.files.as_slice())? {
            Some(recipes) => self.of_recipes(alloc, recipes),
            None => Ok(None),
        }
    }

    fn of_recipes(
        &mut self,
        alloc: Global,
        recipes: List<Recipe>,
    ) -> Result<Option<Problem>, AllocError>
        requires right { list_all is_right_recipe recipes ≡ true }
    {
        if !are_in_order(recipes.as_slice()) {
            return Ok(None);
        }
        match self.database(alloc)? {
            Some(database) => self.over(alloc, recipes, database),
            None => Ok(None),
        }
    }

    fn over(
        &mut self,
        alloc: Global,
        recipes: List<Recipe>,
        database: Database,
    ) -> Result<Option<Problem>, AllocError>
        requires order { AreInOrder recipes }
        requires right { list_all is_right_recipe recipes ≡ true }
    {
        let settings = self.settings(alloc)?;
        let roots = std::mem::replace(&mut self.roots, List::new(alloc));
        if !are_named(roots.as_slice()) {
            return Ok(None);
        }
        assembled(alloc, recipes, settings, database, roots)
    }

    fn database(&mut self, alloc: Global) -> Result<Option<Database>, AllocError> {
        database_of(
            alloc,
            std::mem::replace(&mut self.records, List::new(alloc)),
        )
    }

    fn settings(&mut self, alloc: Global) -> Result<Settings, AllocError> {
        match self.settings.take() {
            Some(settings) => Ok(settings),
            None => Settings::standard(alloc),
        }
    }
}

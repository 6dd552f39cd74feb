//! Questions.
//!
//! Of recipes: `possible VIRTUAL` (the packages that may provide it), `virtual NAME`, `clash` (the
//! least name that is a package and a virtual). Of a node of the graph: `meets NODE SPEC`,
//! `rest NODE SPEC` (without name and version), `provides NODE SPEC` (the virtual SPEC),
//! `holds NODE SPEC`, `all NODE SPEC & SPEC` (both), `governing NODE VARIANT` (the number of the
//! definition). `node NAME` is the node that a name asks for. `problem SPEC SPEC` has the demands
//! where these are requested, or why they are refused; `closure SPEC SPEC` the names that nodes may
//! then have. `find SPEC` has the records of the site that meet it.

ghost use Rattle.std.specs.Prelude.{◌≡◌, true};
ghost use Rattle.std.specs.List.{list_all};
ghost use Rattle.recipe_data.specs.Right.{is_right_recipe};
ghost use Rattle.virtuals.specs.Virtuals.{AreInOrder, AreProviders};

use crate::found::found_text;
use crate::graph::graph_of;
use crate::recipes::recipes_of;
use crate::roots::problem_text;
use crate::site::{Site, site_of};
use condition_rules::{
    Definitions, World, all_hold, asked_node, governing, holds, meets, meets_rest, provides,
};
use graph_core::{Graph, Node};
use plain_data::List;
use recipe_data::{Condition, Recipe};
use recipe_reader::{RecipeFault, RecipeFile};
use reuse_db::DbFault;
use site_settings::Settings;
use spec_grammar::{Part, Spec, SpecFault, read_condition};
use std::alloc::{AllocError, Global};
use virtuals::{ProvidedRows, Providers, ProvidersFault};

fn text_of(alloc: Global, text: &str) -> Result<String, AllocError> {
    String::from_str(alloc, text)
}

fn truth(alloc: Global, is: bool) -> Result<String, AllocError> {
    text_of(alloc, if is { "yes" } else { "no" })
}

// ---- recipes

fn clash_text(alloc: Global, recipes: &[Recipe]) -> Result<String, AllocError> {
    match Providers::new(alloc, recipes) {
        Ok(_) => text_of(alloc, "none"),
        Err(ProvidersFault::NameClash(name)) => text_of(alloc, name.as_str()),
        Err(ProvidersFault::OutOfMemory) => Err(AllocError),
    }
}

fn possible_text(alloc: Global, providers: &Providers, name: &str) -> Result<String, AllocError> {
    let mut text = text_of(alloc, "of")?;
    for pair in providers.possible(name) {
        text.push_str(" ")?;
        text.push_str(pair.1.as_str())?;
    }
    Ok(text)
}

// ---- a node and a spec

fn has_part(world: &World, node: &Node, part: &Part) -> bool {
    match &part.name {
        Some(name) => match &part.versions {
            Some(set) => provides(world, node, name.as_str(), Some(set)),
            None => provides(world, node, name.as_str(), None),
        },
        None => false,
    }
}

fn holds_text(
    alloc: Global,
    world: &World,
    graph: &Graph,
    what: &str,
    name: &str,
    spec: &Spec,
) -> Result<String, AllocError> {
    if what == "holds" {
        return truth(alloc, holds(alloc, world, spec, graph, name)?);
    }
    let Some(node) = graph.node(name) else {
        return text_of(alloc, "no node");
    };
    match what {
        "meets" => truth(alloc, meets(world, &spec.top, node)),
        "rest" => truth(alloc, meets_rest(world, &spec.top, node)),
        "provides" => truth(alloc, has_part(world, node, &spec.top)),
        _ => text_of(alloc, "no question"),
    }
}

fn spec_text(
    alloc: Global,
    world: &World,
    graph: &Graph,
    what: &str,
    name: &str,
    spec: &str,
) -> Result<String, AllocError> {
    match read_condition(alloc, spec) {
        Ok(spec) => holds_text(alloc, world, graph, what, name, &spec),
        Err(SpecFault::OutOfMemory) => Err(AllocError),
        Err(_) => text_of(alloc, "no spec"),
    }
}

fn condition_of(alloc: Global, texts: &str) -> Result<Condition, SpecFault> {
    let mut specs = List::new(alloc);
    for text in texts.split('&') {
        specs.push(read_condition(alloc, text)?)?;
    }
    Ok(Condition { specs })
}

fn all_text(
    alloc: Global,
    world: &World,
    graph: &Graph,
    name: &str,
    texts: &str,
) -> Result<String, AllocError> {
    match condition_of(alloc, texts) {
        Ok(condition) => truth(alloc, all_hold(alloc, world, &condition, graph, name)?),
        Err(SpecFault::OutOfMemory) => Err(AllocError),
        Err(_) => text_of(alloc, "no spec"),
    }
}

fn governing_text(
    alloc: Global,
    world: World,
    graph: &Graph,
    name: &str,
    variant: &str,
) -> Result<String, AllocError> {
    let definitions = Definitions::new(alloc, world, name)?;
    match governing(alloc, &definitions, graph, variant)? {
        Some(row) => {
            let number = row.number;
            format!(in alloc; "{number}")
        }
        None => text_of(alloc, "none"),
    }
}

fn node_text(
    alloc: Global,
    world: &World,
    graph: &Graph,
    name: &str,
) -> Result<String, AllocError> {
    match asked_node(world, graph, name) {
        Some(node) => text_of(alloc, node.name.as_str()),
        None => text_of(alloc, "none"),
    }
}

fn of_graph(
    alloc: Global,
    world: World,
    graph: &Graph,
    what: &str,
    rest: &str,
) -> Result<String, AllocError> {
    let (name, more) = rest.split_once(' ').unwrap_or((rest, ""));
    match what {
        "node" => node_text(alloc, &world, graph, name),
        "all" => all_text(alloc, &world, graph, name, more),
        "governing" => governing_text(alloc, world, graph, name, more),
        _ => spec_text(alloc, &world, graph, what, name, more),
    }
}

fn of_world(
    alloc: Global,
    recipes: &[Recipe],
    providers: &Providers,
    graph: &Graph,
    what: &str,
    rest: &str,
) -> Result<String, AllocError>
    requires order { AreInOrder recipes.now }
    requires providers { AreProviders recipes.now providers.now }
{
    let provided = ProvidedRows::of_recipes(alloc, recipes)?;
    let settings = Settings::standard(alloc)?;
    let world = World::new(
        settings.platform.as_str(),
        &settings.targets,
        recipes,
        providers,
        &provided,
    );
    of_graph(alloc, world, graph, what, rest)
}

fn found_over(
    alloc: Global,
    recipes: &[Recipe],
    site: Site,
    spec: &str,
) -> Result<String, AllocError>
    requires { AreInOrder recipes.now }
{
    let providers = Providers::of_recipes(alloc, recipes)?;
    let provided = ProvidedRows::of_recipes(alloc, recipes)?;
    let settings = &site.settings;
    let world = World::new(
        settings.platform.as_str(),
        &settings.targets,
        recipes,
        &providers,
        &provided,
    );
    found_text(alloc, &world, &site.database, spec)
}

fn found_in(alloc: Global, recipes: &[Recipe], site: &str, spec: &str) -> Result<String, AllocError>
    requires { AreInOrder recipes.now }
{
    match site_of(alloc, site) {
        Ok(site) => found_over(alloc, recipes, site, spec),
        Err(DbFault::OutOfMemory) => Err(AllocError),
        Err(_) => text_of(alloc, "no database"),
    }
}

fn of_recipes(
    alloc: Global,
    recipes: Vec<Recipe>,
    site: &str,
    graph: &str,
    what: &str,
    rest: &str,
) -> Result<String, AllocError>
    requires order { AreInOrder recipes.items }
    requires right { list_all is_right_recipe recipes.items ≡ true }
{
    if what == "problem" || what == "closure" {
        return match site_of(alloc, site) {
            Ok(site) => problem_text(alloc, List::from_vec(recipes), site, what, rest),
            Err(DbFault::OutOfMemory) => Err(AllocError),
            Err(_) => text_of(alloc, "no database"),
        };
    }
    if what == "find" {
        return found_in(alloc, recipes.as_slice(), site, rest);
    }
    if what == "clash" {
        return clash_text(alloc, recipes.as_slice());
    }
    let providers = Providers::of_recipes(alloc, recipes.as_slice())?;
    match what {
        "possible" => possible_text(alloc, &providers, rest),
        "virtual" => truth(alloc, providers.is_virtual(rest)),
        _ => {
            let graph = graph_of(alloc, graph)?;
            of_world(alloc, recipes.as_slice(), &providers, &graph, what, rest)
        }
    }
}

/// The answer to a question of these recipes, this site and this graph.
pub(crate) fn answer(
    alloc: Global,
    files: &[RecipeFile],
    site: &str,
    graph: &str,
    question: &str,
) -> Result<String, AllocError> {
    let (what, rest) = question.split_once(' ').unwrap_or((question, ""));
    match recipes_of(alloc, files) {
        Ok(recipes) => of_recipes(alloc, recipes, site, graph, what, rest),
        Err(RecipeFault::OutOfMemory) => Err(AllocError),
        Err(_) => text_of(alloc, "no recipes"),
    }
}

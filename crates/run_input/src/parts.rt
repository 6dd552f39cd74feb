//! The parts of an input, each with what holds of it once it was read.

ghost use Rattle.std.specs.Prelude.{◌≡◌, true, map};
ghost use Rattle.std.specs.List.{list_all};
ghost use Rattle.std.proofs.lemmas.Map.Keys.{IsStrictlySortedBy-prop};
ghost use Rattle.file_limits.specs.Values.{has_values};
ghost use Rattle.problem.specs.Limits.{are_few_records, are_few_rows, are_small};
ghost use Rattle.recipe_data.specs.Right.{is_right_recipe};
ghost use Rattle.settings_reader.specs.Values.{are_valued};
ghost use Rattle.variant_values.specs.Texts.{byte_cmp};
ghost use Rattle.virtuals.specs.Virtuals.{AreInOrder, recipe_name};
ghost use Rattle.run_input.specs.Roots.{are_named};

use plain_data::List;
use recipe_data::Recipe;
use reuse_db::Database;
use site_settings::Settings;
use spec_grammar::Spec;
use std::marker::Model;

/// Settings: what they say of an external has a value for each variant, and they are within the
/// limit of a problem's.
#[derive(Drop)]
pub struct ReadSettings {
    settings: Settings,
    ghost valued: { are_valued settings ≡ true },
    ghost small: { are_small settings ≡ true },
}

impl Model for ReadSettings {
    ghost use Rattle.site_settings.specs.declared.settings.Settings.{Settings};

    ghost Value = { Settings };

    ghost view = { λ read. read.settings };
}

impl ReadSettings {
    pub(crate) fn new(settings: Settings) -> ReadSettings
        requires valued { are_valued settings ≡ true }
        requires small { are_small settings ≡ true }
        ensures { result ≡ settings }
    {
        ReadSettings { settings }
    }

    /// The settings themselves.
    pub fn settings(self) -> Settings
        ensures same { result ≡ self }
        ensures valued { are_valued result ≡ true }
        ensures small { are_small result ≡ true }
    {
        self.settings
    }
}

/// Recipes in byte order of their names, each right, with no more rows together than a problem may
/// have.
#[derive(Drop)]
pub struct ReadRecipes {
    recipes: List<Recipe>,
    ghost order: { AreInOrder recipes } by { IsStrictlySortedBy-prop byte_cmp (map recipe_name recipes) },
    ghost right: { list_all is_right_recipe recipes ≡ true },
    ghost few_rows: { are_few_rows recipes ≡ true },
}

impl Model for ReadRecipes {
    ghost use Rattle.std.specs.Prelude.{List};
    ghost use Rattle.recipe_data.specs.declared.recipe.Recipe.{Recipe};

    ghost Value = { List Recipe };

    ghost view = { λ read. read.recipes };
}

impl ReadRecipes {
    pub(crate) fn new(recipes: List<Recipe>) -> ReadRecipes
        requires order { AreInOrder recipes }
        requires right { list_all is_right_recipe recipes ≡ true }
        requires few_rows { are_few_rows recipes ≡ true }
        ensures { result ≡ recipes }
    {
        ReadRecipes { recipes }
    }

    /// The recipes themselves.
    pub fn recipes(self) -> List<Recipe>
        ensures same { result ≡ self }
        ensures order { AreInOrder result }
        ensures right { list_all is_right_recipe result ≡ true }
        ensures few_rows { are_few_rows result ≡ true }
    {
        self.recipes
    }
}

/// Records, each with its variants in byte order of their names and a value for each, no more than
/// a problem may have.
#[derive(Drop)]
pub struct ReadRecords {
    records: Database,
    ghost valued: { list_all has_values records ≡ true },
    ghost few: { are_few_records records ≡ true },
}

impl Model for ReadRecords {
    ghost use Rattle.std.specs.Prelude.{List};
    ghost use Rattle.reuse_db.specs.declared.record.Record.{Record};

    ghost Value = { List Record };

    ghost view = { λ read. read.records };
}

impl ReadRecords {
    pub(crate) fn new(records: Database) -> ReadRecords
        requires valued { list_all has_values records ≡ true }
        requires few { are_few_records records ≡ true }
        ensures { result ≡ records }
    {
        ReadRecords { records }
    }

    /// The records themselves.
    pub fn records(self) -> Database
        ensures same { result ≡ self }
        ensures valued { list_all has_values result ≡ true }
        ensures few { are_few_records result ≡ true }
    {
        self.records
    }
}

/// The specs that are asked for, each with a name.
#[derive(Drop)]
pub struct ReadRoots {
    roots: List<Spec>,
    ghost named: { are_named roots ≡ true },
}

impl Model for ReadRoots {
    ghost use Rattle.std.specs.Prelude.{List};
    ghost use Rattle.spec_grammar.specs.declared.part.Spec.{Spec};

    ghost Value = { List Spec };

    ghost view = { λ read. read.roots };
}

impl ReadRoots {
    pub(crate) fn new(roots: List<Spec>) -> ReadRoots
        requires { are_named roots ≡ true }
        ensures { result ≡ roots }
    {
        ReadRoots { roots }
    }

    /// The specs themselves.
    pub fn roots(self) -> List<Spec>
        ensures same { result ≡ self }
        ensures named { are_named result ≡ true }
    {
        self.roots
    }
}

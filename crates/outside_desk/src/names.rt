// Names in a folder.
ghost use Rattle.std.specs.Prelude.{◌≡◌, ◌++◌, ◌∷◌, [], map, IfOk, OnOk};
ghost use Rattle.std.specs.Option.{option_copied};
ghost use Rattle.std.specs.String.{string_bytes};
ghost use Rattle.outside_desk.specs.Listing.{behind, first_part, name_below, with_name, AreInOrder};

use std::alloc::{AllocError, Global};
use std::collections::BTreeSet;
use std::marker::Model;

/// Distinct names, in the order of their bytes.
#[derive(Drop)]
pub struct Names {
    alloc: Global,
    set: BTreeSet<String>,
}

impl Model for Names {
    ghost use Rattle.std.specs.Prelude.{List, ℕ, map};
    ghost use Rattle.std.specs.String.{string_bytes};

    ghost Value = { List (List ℕ) };

    ghost view = { λ names. map string_bytes names.set.keys };
}

impl Names {
    pub fn new(alloc: Global) -> Names
        ensures { result ≡ [] }
    {
        Names {
            alloc,
            set: BTreeSet::new(alloc),
        }
    }

    pub fn add(&mut self, name: &str) -> Result<(), AllocError>
        ensures { OnOk result (self.new ≡ with_name self.old name.now) }
    {
        self.set.insert(String::from_str(self.alloc, name)?)?;
        Ok(())
    }

    #[tactic(auto, using(crate::proofs::Listings::texts_rise))]
    pub fn into_list(self) -> Result<Vec<String>, AllocError>
        ensures names { IfOk result (λ list. map string_bytes list.items ≡ self) }
        ensures order { IfOk result (λ list. AreInOrder (map string_bytes list.items)) }
    {
        self.set.into_iter().collect(self.alloc)
    }
}

/// What stands behind a front, where a text begins with it.
#[tactic(auto, using(crate::proofs::Listings::strip_is))]
fn behind<'a>(front: &str, text: &'a str) -> Option<&'a str>
    ensures { option_copied result ≡ behind front.now text.now }
{
    text.strip_prefix(front)
}

/// What stands before the first `/`, or the end.
#[tactic(auto, unfolding(crate::specs::Listing::first_part))]
fn first_part(text: &str) -> &str
    ensures { result.now ≡ first_part text.now }
{
    match text.split_once('/') {
        Some((name, _)) => name,
        None => text,
    }
}

/// The text between `folder/` and the next `/`, or the path's end, where the path begins so.
pub fn name_below<'a>(folder: &str, path: &'a str) -> Option<&'a str>
    ensures { option_copied result ≡ name_below folder.now path.now }
{
    let inside = behind("/", behind(folder, path)?)?;
    Some(first_part(inside))
}

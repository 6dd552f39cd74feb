//! The names of a closure that stand in a set.
ghost use Rattle.std.specs.Prelude.{◌≡◌, ◌++◌, ◌∷◌, [], filter, IfOk, OnOk, if◌then◌else◌};
ghost use Rattle.condition_rules.specs.Words.{is_one_text};

use plain_data::{Duplicate, List, Word};
use possible_closure::Closure;
use std::alloc::{AllocError, Global};
use variant_values::ValueSet;

/// The names that are in a set. Takes a search in the names for each text of the set.
pub fn members(alloc: Global, names: &Closure, set: &ValueSet) -> Result<List<Word>, AllocError>
    ensures { IfOk result (λ list. list ≡ filter (is_one_text set.now) names.now) }
{
    let list = among(alloc, names, set.values())?;
    let _names = names.names();
    Ok(list)
}

fn among(alloc: Global, names: &Closure, texts: &[Word]) -> Result<List<Word>, AllocError>
    ensures { IfOk result (λ list. list ≡ filter (is_one_text names.now) texts.now) }
{
    let mut list = List::new(alloc);
    for text in texts {
        add_name(alloc, names, text, &mut list)?;
    }
    Ok(list)
}

fn add_name(
    alloc: Global,
    names: &Closure,
    text: &Word,
    list: &mut List<Word>,
) -> Result<(), AllocError>
    ensures { OnOk result (list.new ≡ list.old
        ++ (if is_one_text names.now text.now then text.now ∷ [] else [])) }
{
    if is_name(names, text.as_str()) {
        list.push(text.duplicate(alloc)?)?;
    }
    Ok(())
}

fn is_name(names: &Closure, text: &str) -> bool
    ensures { result ≡ is_one_text names.now text.now }
{
    names.has(text)
}

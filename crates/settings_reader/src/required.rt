//! What is asked of the nodes of a package.

ghost use Rattle.std.specs.Prelude.{◌≡◌, IfOk, Some, [], decimal, option_map, codes};
ghost use Rattle.std.specs.Option.{unwrap_or};
ghost use Rattle.serde_json.specs.View.{view, members_view};
ghost use Rattle.settings_reader.specs.Told.{Below, Tells};
ghost use Rattle.settings_reader.specs.Parsed.{IsOptional};
ghost use Rattle.settings_reader.specs.Required.{AreChoices, AreConditions, AreOnly};
ghost use Rattle.settings_reader.specs.Required.{AreRequired, AreRequiredAt, IsChoice, IsCondition, IsObject};
ghost use Rattle.settings_reader.specs.Required.{IsOnly, IsWhen, IsWhenBy, required_entry, everywhere};
ghost use Rattle.settings_reader.specs.Required.{only};

use crate::lists::TextList;
use crate::parser::{Parser, parse_list};
use crate::stop::{Stop, What, at_root, below, below_place};
use json_readers::{AnyText, Text, known, may, member};
use plain_data::{List, Word};
use serde_json::{Map, Value};
use site_settings::RequireEntry;
use spec_grammar::{Condition, Spec, SpecFault, read_condition};
use std::alloc::{AllocError, Global};

/// One item: a condition, or a choice of some.
#[derive(Clone, Copy)]
pub(crate) struct ItemForm;

impl Parser<RequireEntry> for ItemForm {
    ghost use Rattle.settings_reader.specs.Required.{IsRequirement};

    ghost tells = { λ _. IsRequirement };

    fn parse(&self, alloc: Global, value: &Value) -> Result<RequireEntry, Stop> {
        match value.as_str() {
            Some(text) => parse_only(alloc, text),
            None => parse_object(alloc, value),
        }
    }
}

/// What is asked of the nodes of a package; nothing where it is not written.
pub(crate) fn required_at(
    alloc: Global,
    members: &Map<String, Value>,
) -> Result<List<RequireEntry>, Stop>
    ensures { Tells result (AreRequiredAt (members_view members.now.entries)) }
{
    below(
        alloc,
        "require",
        parse_optional(alloc, member(members, "require")),
    )
}

fn parse_optional(alloc: Global, value: Option<&Value>) -> Result<List<RequireEntry>, Stop>
    ensures { Tells result (IsOptional AreRequired (option_map (λ v. view v.now) value.entry)) }
{
    match value {
        Some(value) => parse_required(alloc, value),
        None => Ok(List::new(alloc)),
    }
}

/// A text alone is its one item.
fn parse_required(alloc: Global, value: &Value) -> Result<List<RequireEntry>, Stop>
    ensures { Tells result (AreRequired (view value.now)) }
{
    match value.as_str() {
        Some(text) => parse_alone(alloc, text),
        None => parse_list(alloc, value, &ItemForm),
    }
}

fn parse_alone(alloc: Global, text: &str) -> Result<List<RequireEntry>, Stop>
    ensures { Tells result (AreOnly text.now) }
{
    let entry = parse_only(alloc, text)?;
    let mut entries = List::new(alloc);
    entries.push(entry)?;
    Ok(entries)
}

/// A condition alone, which is asked everywhere.
fn parse_only(alloc: Global, text: &str) -> Result<RequireEntry, Stop>
    ensures { Tells result (IsOnly text.now) }
{
    let spec = parse_condition(alloc, text)?;
    Ok(only(alloc, spec)?)
}

fn only(alloc: Global, spec: Spec) -> Result<RequireEntry, AllocError>
    ensures { IfOk result (λ entry. entry ≡ only spec) }
{
    let mut specs = List::new(alloc);
    specs.push(spec)?;
    Ok(RequireEntry {
        specs,
        one_of: false,
        when: everywhere(alloc),
    })
}

fn everywhere(alloc: Global) -> Condition
    ensures { result ≡ everywhere }
{
    Condition {
        specs: List::new(alloc),
    }
}

/// A choice of conditions, and where it is asked.
fn parse_object(alloc: Global, value: &Value) -> Result<RequireEntry, Stop>
    ensures { Tells result (IsObject (view value.now)) }
{
    let members = known(alloc, value, &["any_of", "message", "one_of", "when"])?;
    let one_of = choice_in(alloc, members)?;
    let any = choices_at(alloc, members, "any_of")?;
    let message = may(alloc, members, "message", &Text(AnyText))?;
    drop(message);
    let one = choices_at(alloc, members, "one_of")?;
    let when = when_in(alloc, members)?;
    Ok(required_entry(one_of, any, one, when))
}

fn required_entry(one_of: bool, any: List<Spec>, one: List<Spec>, when: Condition) -> RequireEntry
    ensures { result ≡ required_entry one_of any one when }
{
    let specs = if one_of { one } else { any };
    RequireEntry {
        specs,
        one_of,
        when,
    }
}

/// Whether exactly one condition is to hold.
fn choice_in(alloc: Global, members: &Map<String, Value>) -> Result<bool, Stop>
    ensures { Tells result (IsChoice (members_view members.now.entries)) }
{
    match (member(members, "any_of"), member(members, "one_of")) {
        (Some(_), None) => Ok(false),
        (None, Some(_)) => Ok(true),
        _ => at_root(alloc, What::WrongKind),
    }
}

/// The conditions at a key; none where it is not there.
fn choices_at(alloc: Global, members: &Map<String, Value>, key: &str) -> Result<List<Spec>, Stop>
    ensures { Tells result (AreChoices key.now (members_view members.now.entries)) }
{
    let texts = may(alloc, members, key, &TextList)?;
    choices_below(alloc, key, &texts)
}

fn choices_below(alloc: Global, key: &str, texts: &Option<List<Word>>) -> Result<List<Spec>, Stop>
    ensures { Tells result (Below key.now (AreConditions (unwrap_or texts.now []))) }
{
    below(alloc, key, parse_texts(alloc, texts))
}

fn parse_texts(alloc: Global, texts: &Option<List<Word>>) -> Result<List<Spec>, Stop>
    ensures { Tells result (AreConditions (unwrap_or texts.now [])) }
{
    match texts {
        Some(texts) => parse_all(alloc, texts.as_slice()),
        None => Ok(List::new(alloc)),
    }
}

fn parse_all(alloc: Global, texts: &[Word]) -> Result<List<Spec>, Stop>
    ensures { Tells result (AreConditions texts.now) }
{
    let mut specs = List::new(alloc);
    for (i, text) in texts.iter().enumerate() {
        specs.push(condition_at(alloc, i, text)?)?;
    }
    Ok(specs)
}

fn condition_at(alloc: Global, place: usize, text: &Word) -> Result<Spec, Stop>
    ensures { Tells result (Below (decimal place) (IsCondition text.now)) }
{
    below_place(alloc, place, parse_condition(alloc, text.as_str()))
}

/// Where it is asked.
fn when_in(alloc: Global, members: &Map<String, Value>) -> Result<Condition, Stop>
    ensures { Tells result (IsWhen (members_view members.now.entries)) }
{
    let text = may(alloc, members, "when", &Text(AnyText))?;
    when_below(alloc, &text)
}

fn when_below(alloc: Global, text: &Option<Word>) -> Result<Condition, Stop>
    ensures { Tells result (Below (codes "when") (IsWhenBy text.now)) }
{
    below(alloc, "when", parse_when(alloc, text))
}

fn parse_when(alloc: Global, text: &Option<Word>) -> Result<Condition, Stop>
    ensures { Tells result (IsWhenBy text.now) }
{
    match text {
        Some(text) => parse_written(alloc, text.as_str()),
        None => Ok(everywhere(alloc)),
    }
}

fn parse_written(alloc: Global, text: &str) -> Result<Condition, Stop>
    ensures { Tells result (IsWhenBy (Some text.now)) }
{
    let spec = parse_condition(alloc, text)?;
    let mut specs = List::new(alloc);
    specs.push(spec)?;
    Ok(Condition { specs })
}

/// The condition that a text spells.
fn parse_condition(alloc: Global, text: &str) -> Result<Spec, Stop>
    ensures { Tells result (IsCondition text.now) }
{
    match read_condition(alloc, text) {
        Ok(spec) => Ok(spec),
        Err(SpecFault::OutOfMemory) => Err(Stop::OutOfMemory),
        Err(fault) => at_root(alloc, What::Spec(fault)),
    }
}

//! What reads values in which texts of a grammar stand.

ghost use Rattle.std.specs.Prelude.{◌≡◌, decimal, option_map};
ghost use Rattle.serde_json.specs.View.{view, items_view, members_view};
ghost use Rattle.serde_json.specs.Find.{get_member};
ghost use Rattle.settings_reader.specs.Told.{Below, Tells};
ghost use Rattle.settings_reader.specs.Parsed.{AreItems, IsListOf, IsListAt, IsOptional};

use crate::stop::{Stop, What, at_root, below, below_place};
use json_readers::member;
use plain_data::List;
use serde_json::{Map, Value};
use std::alloc::Global;

/// Reads the values of one form as a `T`, where texts of a grammar stand in them: so which outcomes
/// are right is told by a relation.
pub(crate) trait Parser<T> {
    ghost use Rattle.serde_json.specs.Data.{Data};
    ghost use Rattle.settings_reader.specs.Told.{Told};

    ghost tells: { Self → Data → Told T };

    fn parse(&self, alloc: Global, value: &Value) -> Result<T, Stop>
        ensures { Tells result (tells self.now (view value.now)) };
}

/// The list at a key; the empty one where there is no such key.
pub(crate) fn list_at<T: Drop, P: Parser<T>>(
    alloc: Global,
    members: &Map<String, Value>,
    key: &str,
    parser: &P,
) -> Result<List<T>, Stop>
    ensures { Tells result
        (IsListAt (P.tells parser.now) key.now (members_view members.now.entries)) }
{
    below(
        alloc,
        key,
        parse_optional(alloc, member(members, key), parser),
    )
}

fn parse_optional<T: Drop, P: Parser<T>>(
    alloc: Global,
    value: Option<&Value>,
    parser: &P,
) -> Result<List<T>, Stop>
    ensures { Tells result
        (IsOptional (IsListOf (P.tells parser.now)) (option_map (λ v. view v.now) value.entry)) }
{
    match value {
        Some(value) => parse_list(alloc, value, parser),
        None => Ok(List::new(alloc)),
    }
}

/// A list of values of the form.
pub(crate) fn parse_list<T: Drop, P: Parser<T>>(
    alloc: Global,
    value: &Value,
    parser: &P,
) -> Result<List<T>, Stop>
    ensures { Tells result (IsListOf (P.tells parser.now) (view value.now)) }
{
    match value {
        Value::Array(items) => parse_items(alloc, items.as_slice(), parser),
        _ => at_root(alloc, What::WrongKind),
    }
}

fn parse_items<T: Drop, P: Parser<T>>(
    alloc: Global,
    items: &[Value],
    parser: &P,
) -> Result<List<T>, Stop>
    ensures { Tells result (AreItems (P.tells parser.now) (items_view items.now)) }
{
    let mut read = List::new(alloc);
    for (i, item) in items.iter().enumerate() {
        read.push(parse_item(alloc, i, item, parser)?)?;
    }
    Ok(read)
}

fn parse_item<T: Drop, P: Parser<T>>(
    alloc: Global,
    place: usize,
    item: &Value,
    parser: &P,
) -> Result<T, Stop>
    ensures { Tells result (Below (decimal place) (P.tells parser.now (view item.now))) }
{
    below_place(alloc, place, parser.parse(alloc, item))
}

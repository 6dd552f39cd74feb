//! Values of keywords.

ghost use Rattle.std.specs.Prelude.{◌≡◌, ◌≢◌};
ghost use Rattle.directive_arguments.specs.Results.{Is, Gives};
ghost use Rattle.directive_arguments.specs.Texts.{condition};
ghost use Rattle.directive_arguments.specs.Keywords.{truth_in, when_in, policy_word, policy_in, no_options, is_local, option};

use crate::choice::{default_in, values_in};
use crate::kinds::kinds_in;
use crate::positional::text_in;
use crate::table::is;
use crate::text::condition;
use crate::{ArgumentFault, Directive, Keyword, Options};
use graph_core::Kinds;
use recipe_values::{PlacedValue, Scalar, Value};
use spec_grammar::Spec;
use std::alloc::Global;

/// `True` or `False`.
fn truth_in(reading: &PlacedValue) -> Result<bool, ArgumentFault>
    ensures { Is result (truth_in reading.now) }
{
    match &reading.value {
        Value::One(Scalar::Truth(value)) => Ok(*value),
        _ => Err(ArgumentFault::BadArgument(reading.place)),
    }
}

/// A condition, none for `None`; a local one has no `^`.
fn when_in(alloc: Global, local: bool, reading: &PlacedValue) -> Result<Option<Spec>, ArgumentFault>
    ensures { Is result (when_in local reading.now) }
{
    if let Value::One(Scalar::Nothing) = &reading.value {
        return Ok(None);
    }
    match text_in(&reading.value) {
        None => Err(ArgumentFault::BadArgument(reading.place)),
        Some(word) => {
            let spec = condition(alloc, local, reading.token, word.as_str().as_bytes())?;
            Ok(Some(spec))
        }
    }
}

/// Whether a policy's word asks for exactly one.
fn policy_word(place: u64, word: &[u8]) -> Result<bool, ArgumentFault>
    ensures { Is result (policy_word place word.now) }
{
    if is(word, b"one_of") {
        Ok(true)
    } else if is(word, b"any_of") {
        Ok(false)
    } else {
        Err(ArgumentFault::BadArgument(place))
    }
}

/// Whether exactly one is to hold.
fn policy_in(reading: &PlacedValue) -> Result<bool, ArgumentFault>
    ensures { Is result (policy_in reading.now) }
{
    match &reading.value {
        Value::One(Scalar::Text(word)) => policy_word(reading.place, word.as_str().as_bytes()),
        _ => Err(ArgumentFault::BadArgument(reading.place)),
    }
}

/// Before any keyword.
pub(crate) fn no_options() -> Options
    ensures { result ≡ no_options }
{
    Options {
        when: None,
        preferred: false,
        deprecated: false,
        multi: false,
        one_of: true,
        kinds: Kinds {
            build: true,
            link: true,
            run: false,
        },
        default: None,
        values: None,
    }
}

/// Conditions of `provides` are local.
fn is_local(directive: Directive) -> bool
    ensures { result ≡ is_local directive }
{
    matches!(directive, Directive::Provides)
}

/// A keyword but `default`, and its value.
#[tactic(auto, unfolding(crate::specs::Keywords::option))]
fn small_option(
    alloc: Global,
    directive: Directive,
    keyword: Keyword,
    reading: &PlacedValue,
    options: &mut Options,
) -> Result<(), ArgumentFault>
    requires { keyword ≢ Keyword.Default }
    ensures { Gives result options.new (option directive keyword reading.now options.old) }
{
    match keyword {
        Keyword::Preferred => options.preferred = truth_in(reading)?,
        Keyword::Deprecated => options.deprecated = truth_in(reading)?,
        Keyword::Multi => options.multi = truth_in(reading)?,
        Keyword::When => options.when = when_in(alloc, is_local(directive), reading)?,
        Keyword::Kinds => options.kinds = kinds_in(reading)?,
        Keyword::Policy => options.one_of = policy_in(reading)?,
        Keyword::Values => options.values = Some(values_in(alloc, reading)?),
        Keyword::Default => {}
    }
    Ok(())
}

/// A keyword and its value.
#[tactic(auto, unfolding(crate::specs::Keywords::option))]
pub(crate) fn option(
    alloc: Global,
    directive: Directive,
    keyword: Keyword,
    reading: PlacedValue,
    options: &mut Options,
) -> Result<(), ArgumentFault>
    ensures { Gives result options.new (option directive keyword reading options.old) }
{
    if let Keyword::Default = keyword {
        options.default = Some(default_in(reading)?);
        return Ok(());
    }
    small_option(alloc, directive, keyword, &reading, options)
}

//! The table of directives: what each of them takes.

ghost use Rattle.std.specs.Prelude.{◌≡◌};
ghost use Rattle.std.specs.Str.{bytes_eq};
ghost use Rattle.directive_arguments.specs.Table.{directive_of, role, takes};

use crate::{Count, Directive, Keyword, Role};

/// Whether a text is this one.
pub(crate) fn is(text: &[u8], wanted: &[u8]) -> bool
    ensures { result ≡ bytes_eq text.now wanted.now }
{
    text == wanted
}

/// The directive that a word names.
#[tactic(auto, unfolding(crate::specs::Table::directive_of))]
pub fn directive_of(word: &[u8]) -> Option<Directive>
    ensures { result ≡ directive_of word.now }
{
    if is(word, b"version") {
        Some(Directive::Version)
    } else if is(word, b"variant") {
        Some(Directive::Variant)
    } else if is(word, b"depends_on") {
        Some(Directive::DependsOn)
    } else if is(word, b"provides") {
        Some(Directive::Provides)
    } else if is(word, b"conflicts") {
        Some(Directive::Conflicts)
    } else if is(word, b"requires") {
        Some(Directive::Requires)
    } else {
        None
    }
}

/// How many positional values a directive reads.
pub(crate) fn count_of(directive: Directive) -> Count
    ensures { result ≡ (takes directive).positional }
{
    match directive {
        Directive::Version => Count::OneAndOthers,
        Directive::Provides | Directive::Requires => Count::OneOrMore,
        _ => Count::One,
    }
}

/// `version`: all keywords but two, as checksums and sources, are passed over.
#[tactic(auto, unfolding(crate::specs::Table::role))]
fn version_role(word: &[u8]) -> Role
    ensures { result ≡ role Directive.Version word.now }
{
    if is(word, b"preferred") {
        Role::Reads(Keyword::Preferred)
    } else if is(word, b"deprecated") {
        Role::Reads(Keyword::Deprecated)
    } else {
        Role::PassesOver
    }
}

/// `variant`: any keyword that is not in the table is refused.
#[tactic(auto, unfolding(crate::specs::Table::role))]
fn variant_role(word: &[u8]) -> Role
    ensures { result ≡ role Directive.Variant word.now }
{
    if is(word, b"default") {
        Role::Reads(Keyword::Default)
    } else if is(word, b"values") {
        Role::Reads(Keyword::Values)
    } else if is(word, b"multi") {
        Role::Reads(Keyword::Multi)
    } else if is(word, b"when") {
        Role::Reads(Keyword::When)
    } else if is(word, b"description") {
        Role::PassesOver
    } else {
        Role::Refuses
    }
}

/// `depends_on`: patches change no graph.
#[tactic(auto, unfolding(crate::specs::Table::role))]
fn depends_on_role(word: &[u8]) -> Role
    ensures { result ≡ role Directive.DependsOn word.now }
{
    if is(word, b"type") {
        Role::Reads(Keyword::Kinds)
    } else if is(word, b"when") {
        Role::Reads(Keyword::When)
    } else if is(word, b"patches") {
        Role::PassesOver
    } else {
        Role::Refuses
    }
}

#[tactic(auto, unfolding(crate::specs::Table::role))]
fn provides_role(word: &[u8]) -> Role
    ensures { result ≡ role Directive.Provides word.now }
{
    if is(word, b"when") {
        Role::Reads(Keyword::When)
    } else {
        Role::Refuses
    }
}

/// `conflicts`: a message changes no graph.
#[tactic(auto, unfolding(crate::specs::Table::role))]
fn conflicts_role(word: &[u8]) -> Role
    ensures { result ≡ role Directive.Conflicts word.now }
{
    if is(word, b"when") {
        Role::Reads(Keyword::When)
    } else if is(word, b"msg") {
        Role::PassesOver
    } else {
        Role::Refuses
    }
}

/// `requires`: a message changes no graph.
#[tactic(auto, unfolding(crate::specs::Table::role))]
fn requires_role(word: &[u8]) -> Role
    ensures { result ≡ role Directive.Requires word.now }
{
    if is(word, b"policy") {
        Role::Reads(Keyword::Policy)
    } else if is(word, b"when") {
        Role::Reads(Keyword::When)
    } else if is(word, b"msg") {
        Role::PassesOver
    } else {
        Role::Refuses
    }
}

/// What a directive does with a keyword.
pub(crate) fn role(directive: Directive, word: &[u8]) -> Role
    ensures { result ≡ role directive word.now }
{
    match directive {
        Directive::Version => version_role(word),
        Directive::Variant => variant_role(word),
        Directive::DependsOn => depends_on_role(word),
        Directive::Provides => provides_role(word),
        Directive::Conflicts => conflicts_role(word),
        Directive::Requires => requires_role(word),
    }
}

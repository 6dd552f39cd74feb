//! Keys with a meaning of their own.

ghost use Rattle.std.specs.Prelude.{◌≡◌};
ghost use Rattle.std.specs.Str.{bytes_eq};
ghost use Rattle.spec_grammar.specs.Keys.{key_of, names_flags};

/// What `NAME=` sets.
#[derive(Clone, Copy)]
pub enum KeyKind {
    /// `platform=linux`
    Platform,
    /// `os=rocky9`
    Os,
    /// `arch=linux-rocky9-zen3`
    Arch,
    /// `target=zen3`
    Target,
    /// Flags of a compiler, which are not read.
    Flags,
    /// The variant of that name.
    Variant,
}

fn is(name: &[u8], key: &[u8]) -> bool
    ensures { result ≡ bytes_eq name.now key.now }
{
    name == key
}

/// Whether a key sets flags of a compiler.
fn names_flags(name: &[u8]) -> bool
    ensures { result ≡ names_flags name.now }
{
    is(name, b"cflags")
        || is(name, b"cxxflags")
        || is(name, b"fflags")
        || is(name, b"cppflags")
        || is(name, b"ldflags")
        || is(name, b"ldlibs")
}

/// What a key sets.
#[tactic(auto, unfolding(crate::specs::Keys::key_of))]
pub(crate) fn key_of(name: &[u8]) -> KeyKind
    ensures { result ≡ key_of name.now }
{
    if is(name, b"platform") {
        KeyKind::Platform
    } else if is(name, b"os") {
        KeyKind::Os
    } else if is(name, b"arch") {
        KeyKind::Arch
    } else if is(name, b"target") {
        KeyKind::Target
    } else if names_flags(name) {
        KeyKind::Flags
    } else {
        KeyKind::Variant
    }
}

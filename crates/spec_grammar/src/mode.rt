//! The kinds of texts, and which items they may have where.

ghost use Rattle.std.specs.Prelude.{◌≡◌};
ghost use Rattle.spec_grammar.specs.Right.{is_apart};

use crate::item::{Kind, Mark};

/// The kinds of spec texts.
#[derive(Clone, Copy)]
pub enum Mode {
    /// Specs of a command line or an environment, with white space between them.
    Specs,
    /// A condition, as of `when=`: one spec, whose package need not be named.
    Condition,
    /// A condition without `^`, as of the `when=` of `provides`.
    LocalCondition,
    /// One spec without `^`, as of `depends_on`.
    Dependency,
    /// A name with versions, as of `provides`.
    Provision,
}

/// What stands before a place of a text, besides white space.
#[derive(Clone, Copy)]
pub enum Before {
    /// Nothing.
    Start,
    /// `^`
    Caret,
    /// Another item.
    Inside,
}

impl Mode {
    ghost use Rattle.spec_grammar.specs.Right.{needs_name, may_nest, may_repeat, may_have_all, may_name, may_constrain, may_stand};

    /// Whether such a text begins with a NAME.
    pub(crate) fn needs_name(self) -> bool
        ensures { result ≡ needs_name self }
    {
        !matches!(self, Mode::Condition | Mode::LocalCondition)
    }

    /// Whether such a text may have `^`.
    pub(crate) fn may_nest(self) -> bool
        ensures { result ≡ may_nest self }
    {
        matches!(self, Mode::Specs | Mode::Condition)
    }

    fn may_repeat(self) -> bool
        ensures { result ≡ may_repeat self }
    {
        matches!(self, Mode::Specs)
    }

    /// Whether such a text may have constraints other than `@`.
    pub(crate) fn may_have_all(self) -> bool
        ensures { result ≡ may_have_all self }
    {
        !matches!(self, Mode::Provision)
    }

    /// Whether a NAME that stands here, behind white space or not, begins a part.
    pub(crate) fn may_name(self, before: Before, gap: bool) -> bool
        ensures { result ≡ may_name self before gap }
    {
        match before {
            Before::Start | Before::Caret => true,
            Before::Inside => self.may_repeat() && gap,
        }
    }

    fn may_constrain(self, before: Before) -> bool
        ensures { result ≡ may_constrain self before }
    {
        match before {
            Before::Start => !self.needs_name(),
            Before::Caret => false,
            Before::Inside => true,
        }
    }

    /// Whether an item of this kind may stand here, behind white space or not.
    pub(crate) fn may_stand(self, before: Before, gap: bool, kind: Kind) -> bool
        ensures { result ≡ may_stand self before gap kind }
    {
        match kind {
            Kind::Name => self.may_name(before, gap),
            Kind::Versions => self.may_constrain(before),
            Kind::Variant(Mark::Plus | Mark::Tilde) | Kind::Compiler => {
                self.may_constrain(before) && self.may_have_all()
            }
            Kind::Variant(Mark::Minus) | Kind::Key => {
                self.may_constrain(before) && self.may_have_all() && is_apart(before, gap)
            }
            Kind::Caret => self.may_constrain(before) && self.may_nest(),
        }
    }
}

/// Whether white space stands before this place, or no item.
fn is_apart(before: Before, gap: bool) -> bool
    ensures { result ≡ is_apart before gap }
{
    match before {
        Before::Start | Before::Caret => true,
        Before::Inside => gap,
    }
}

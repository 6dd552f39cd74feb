//! What holds of all arguments, and some rows by computation. The bodies are empty: what is proved are the contracts.

ghost use Rattle.std.specs.Prelude.{◌≡◌, ℕ, List, codes, Some, None, Result, IfOk, IfSome};
ghost use Rattle.spec_grammar.specs.declared.mode.Mode.{Mode};
ghost use Rattle.spec_grammar.specs.declared.part.Spec.{Spec};
ghost use Rattle.spec_grammar.specs.declared.fault.SpecFault.{SpecFault};
ghost use Rattle.recipe_values.specs.declared.segment.Segment.{Segment};
ghost use Rattle.directive_arguments.specs.Table.{directive_of, role};
ghost use Rattle.directive_arguments.specs.declared.directive.Directive.{Directive};
ghost use Rattle.directive_arguments.specs.declared.directive.Directive.TheVariants as directive;
ghost use Rattle.directive_arguments.specs.declared.directive.Keyword.TheVariants as keyword;
ghost use Rattle.directive_arguments.specs.declared.directive.Role.TheVariants.{Reads, PassesOver, Refuses};
ghost use Rattle.directive_arguments.specs.declared.given.Options.{Options};
ghost use Rattle.directive_arguments.specs.Texts.{IsAnswer, answer};
ghost use Rattle.directive_arguments.specs.Arguments.{arguments};
ghost use Rattle.directive_arguments.specs.Variants.{shape};
ghost use Rattle.directive_arguments.specs.Said.{GivesNamed, GivesLocal, IsShape};

/// Each text of a kind has one answer, which `arguments` takes: the specs that it spells, or its fault, never want
/// of memory.
pub fn answer_laws()
    ensures is_answer { (mode : Mode) (text : List ℕ) → IsAnswer mode text (answer mode text) }
    ensures only_answer { (mode : Mode) (text : List ℕ) (other : Result (List Spec) SpecFault) →
        IsAnswer mode text other → other ≡ answer mode text }
{}

/// Whatever arguments say, names stand where they are needed; conditions of `provides` have no `^`; and each variant's
/// default is allowed, with as many values as its kind takes.
pub fn argument_laws()
    ensures named { (bytes : List ℕ) (d : Directive) (segments : List Segment)
        → IfOk (arguments bytes d segments) GivesNamed }
    ensures local { (bytes : List ℕ) (segments : List Segment)
        → IfOk (arguments bytes directive.Provides segments) GivesLocal }
    ensures default { (options : Options) → IfSome (shape options) IsShape }
{}

/// What directives do with keywords.
#[tactic(auto, unfolding(crate::specs::Table::role, crate::specs::Table::directive_of))]
pub fn worked_roles()
    ensures reads { role directive.Version (codes "preferred") ≡ Reads keyword.Preferred }
    ensures others { role directive.Version (codes "sha256") ≡ PassesOver }
    ensures passes { role directive.Variant (codes "description") ≡ PassesOver }
    ensures refuses { role directive.Variant (codes "sticky") ≡ Refuses }
    ensures none { role directive.Provides (codes "msg") ≡ Refuses }
    ensures kinds { role directive.DependsOn (codes "type") ≡ Reads keyword.Kinds }
    ensures named { directive_of (codes "requires") ≡ Some directive.Requires }
    ensures other { directive_of (codes "patch") ≡ None }
{}

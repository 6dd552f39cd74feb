//! Some texts, by computation. The body is empty: what is proved is the contract.

ghost use Rattle.std.specs.Prelude.{◌≡◌, codes};
ghost use Rattle.spec_grammar.specs.declared.fault.Form.TheVariants.{NestedDependency};
ghost use Rattle.spec_grammar.specs.declared.fault.SpecFault.TheVariants as spec;
ghost use Rattle.target_table.specs.declared.fault.TargetFault.TheVariants as target;
ghost use Rattle.settings_reader.specs.declared.fault.SettingsFault.TheVariants as settings;
ghost use Rattle.recipe_lexer.specs.declared.token.LexFault.TheVariants as lex;
ghost use Rattle.recipe_reader.specs.declared.fault.RecipeFault.TheVariants as recipe;
ghost use Rattle.run_answers.specs.FaultTexts.{spec_fault_text, settings_fault_text, recipe_fault_text, lock_fault_text};
ghost use Rattle.lockfile.specs.declared.fault.LockFault.TheVariants as lock;

/// Faults and their texts.
pub fn worked_fault_texts()
    ensures expected { spec_fault_text (spec.Expected 12) ≡ codes "Expected 12" }
    ensures form { spec_fault_text (spec.Unsupported 5 NestedDependency)
        ≡ codes "Unsupported 5 NestedDependency" }
    ensures string { recipe_fault_text (recipe.Lex (lex.OpenString 30))
        ≡ codes "Lex OpenString 30" }
    ensures file { recipe_fault_text (recipe.Lex lex.NotUtf8) ≡ codes "Lex NotUtf8" }
    ensures inner { recipe_fault_text (recipe.Spec 33 (spec.Expected 2))
        ≡ codes "Spec 33 Expected 2" }
    ensures key { settings_fault_text (settings.UnknownKey (codes "/color"))
        ≡ codes "UnknownKey /color" }
    ensures targets { settings_fault_text (settings.Targets (target.UnknownParent 1))
        ≡ codes "Targets UnknownParent 1" }
    ensures text { settings_fault_text (settings.Spec (codes "/packages/a") (spec.Expected 2))
        ≡ codes "Spec /packages/a Expected 2" }
    ensures names { lock_fault_text (lock.TwiceNamed (codes "zlib")) ≡ codes "TwiceNamed zlib" }
    ensures class { recipe_fault_text recipe.NoClass ≡ codes "NoClass" }
{}

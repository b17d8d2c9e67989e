// Laws of what files spell. Each function does nothing: its contract is the law.
ghost use Rattle.std.specs.Prelude.{◌≡◌, List, ℕ};
ghost use Rattle.razor_ast.specs.declared.component.Component.{Component as Tree};
ghost use Rattle.component_files.specs.declared.files.SourceFile.{SourceFile as File};
ghost use Rattle.component_files.specs.declared.files.Unreadable.{Unreadable as Cause};
ghost use Rattle.component_files.specs.Files.{AllSpell, FirstFails};

/// Files spell at most one list of components, and where they do, none of them is the first that spells none.
pub fn files_spell_one_list_of_components()
    ensures one { (files : List File) (a : List Tree) (b : List Tree) → AllSpell files a → AllSpell files b → a ≡ b }
    ensures all { (files : List File) (a : List Tree) (place : ℕ) (cause : Cause) → AllSpell files a → FirstFails files place cause → ⊥ }
{}

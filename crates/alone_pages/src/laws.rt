// Laws of components by themselves. Each function does nothing: its contract is the law.
ghost use Rattle.std.specs.Prelude.{◌≡◌, List, [], ◌∷◌, true, None};
ghost use Rattle.component_files.specs.declared.files.SourceFile.{SourceFile};
ghost use Rattle.component_files.specs.Files.{AllSpell};
ghost use Rattle.razor_ast.specs.declared.component.Component.{Component};
ghost use Rattle.cs_rules.specs.Judged.{fine};
ghost use Rattle.razor_rules.specs.Programs.{home_of, BreaksFirst};
ghost use Rattle.frame_parts.specs.Components.{Meaning, component_meaning};
ghost use Rattle.page_meaning.specs.Fresh.{fresh_alone, stuck};
ghost use Rattle.page_meaning.specs.Resolved.{Placing};
ghost use Rattle.page_typing.specs.Pages.{NoTags, NoParameters, IsShown};
ghost use Rattle.standing_alone.specs.Alone.{stands_alone};

/// A component that stands alone has no tags of components in its template, and no parameters.
pub fn components_alone_have_no_tags_and_no_parameters()
    ensures { (component : Component) → stands_alone component ≡ true → NoTags component.nodes × NoParameters component.members }
{}

/// A component that its file spells, that breaks no rule and stands alone comes to fields, bodies and a template.
pub fn components_alone_come_to_their_parts()
    ensures { (files : List SourceFile) (component : Component) → AllSpell files (component ∷ []) → BreaksFirst (component ∷ []) None → stands_alone component ≡ true
        → (it : Placing Meaning) × (component_meaning (home_of (component ∷ []) 0 component) component ≡ fine it) }
{}

/// Its fresh rendering is a page, or a fault ends it.
pub fn components_alone_show_a_page()
    ensures { (files : List SourceFile) (component : Component) → AllSpell files (component ∷ []) → BreaksFirst (component ∷ []) None → stands_alone component ≡ true
        → IsShown (fresh_alone component) }
{}

/// So it is not stuck.
pub fn components_alone_are_never_stuck()
    ensures { (files : List SourceFile) (component : Component) → AllSpell files (component ∷ []) → BreaksFirst (component ∷ []) None → stands_alone component ≡ true
        → fresh_alone component ≡ stuck → ⊥ }
{}

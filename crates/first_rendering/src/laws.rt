// Laws of first renderings. Each function does nothing: its contract is the law.
ghost use Rattle.std.specs.Prelude.{◌≡◌, [], ◌∷◌};
ghost use Rattle.frame_compiler.specs.Compiles.{Compiles};
ghost use Rattle.frame_program.specs.declared.compiled.Compiled.{Compiled};
ghost use Rattle.page_meaning.specs.Fresh.{fresh_alone};
ghost use Rattle.razor_ast.specs.declared.component.Component.{Component};
ghost use Rattle.first_rendering.specs.Alone.{items_alone};
ghost use Rattle.first_rendering.specs.First.{first_items, first_page};

/// The first items of a compiled component are those of the component by itself.
pub fn compiled_components_have_their_first_items()
    ensures { (component : Component) (compiled : Compiled) → Compiles (component ∷ []) compiled → first_items compiled ≡ items_alone component }
{}

/// The first page of a compiled component is the fresh rendering of the component by itself.
pub fn compiled_components_have_their_first_pages()
    ensures { (component : Component) (compiled : Compiled) → Compiles (component ∷ []) compiled → first_page compiled ≡ fresh_alone component }
{}

// Laws of the definitions that contracts cite.
ghost use Rattle.std.specs.Prelude.{◌≡◌, List, ℕ};
ghost use Rattle.first_click.specs.declared.component.Component.{Component};
ghost use Rattle.first_click.specs.Component.{Spells};

/// A file spells at most one component. The function does nothing: its contract is the law.
pub fn a_file_spells_one_component()
    ensures { (path : List ℕ) (text : List ℕ) (a : Component) (b : Component)
        → Spells path text a → Spells path text b → a ≡ b }
{}

// What holds of the components that files spell.
ghost use Rattle.std.specs.Prelude.{ℕ, List};
ghost use Rattle.first_click.specs.Component.{Spells};
ghost use Rattle.first_click.specs.declared.component.Component.{Component};
ghost use Rattle.plain_page.specs.Runnable.{IsRunnable};

/// Does nothing. The component that a file spells can run on a stage.
pub fn what_a_file_spells_can_run()
    ensures { (path text : List ℕ) (component : Component) → Spells path text component → IsRunnable component }
{}

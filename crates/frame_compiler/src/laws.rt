// Laws of compiled programs. Each function does nothing: its contract is the law.
ghost use Rattle.std.specs.Prelude.{◌≡◌, List, Some, slice_get};
ghost use Rattle.cs_meaning.specs.State.{Fields};
ghost use Rattle.frame_program.specs.declared.compiled.Compiled.{Compiled};
ghost use Rattle.frame_program.specs.declared.compiled.RunScope.{RunScope};
ghost use Rattle.frame_program.specs.Frames.{frames_of};
ghost use Rattle.page_meaning.specs.Items.{items};
ghost use Rattle.razor_ast.specs.declared.component.Component.{Component};
ghost use Rattle.frame_compiler.specs.Compiles.{Compiles};

/// Each rendering of each instance of a compiled program, on 1,000,000 units, makes the items that its component's template says.
pub fn compiled_programs_draw_what_templates_say()
    ensures { (components : List Component) (compiled : Compiled) (scope : RunScope) (component : Component) (fields : Fields) (parameters : Fields)
        → Compiles components compiled → slice_get components scope.component ≡ Some component
        → frames_of compiled scope fields parameters (record { left = 1000000; depth = 1 })
        ≡ items components parameters fields scope.component component scope.who scope.depth }
{}

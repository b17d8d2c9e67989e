// Whole components as texts.
ghost use Rattle.std.specs.Prelude.{◌≡◌, ℕ, IfOk, List};
ghost use Rattle.printing_nodes.specs.Answers.{SpellsAgain};
ghost use Rattle.razor_ast.specs.Components.{Spells};
ghost use Rattle.razor_print.specs.Components.{component_text};

use razor_ast::Component;
use razor_print::push_component;
use std::alloc::Global;
use text_core::{Oom, Txt};

/// The text that a component is printed as, which spells an equal one.
pub fn print_component(alloc: Global, component: &Component) -> Result<Txt, Oom>
    ensures printed { IfOk result (λ text. text ≡ component_text component.now) }
    ensures again { (text : List ℕ) → Spells text component.now → IfOk result (λ printed. SpellsAgain printed component.now) }
{
    let mut out = Txt::new(alloc);
    push_component(alloc, &mut out, component)?;
    Ok(out)
}

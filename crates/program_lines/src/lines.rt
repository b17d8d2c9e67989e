// The lines about a program.
ghost use Rattle.std.specs.Prelude.{◌≡◌, ℕ, List, ◌∷◌, [], None, Some, slice_get, IfOk, IfSome, option_map};
ghost use Rattle.cs_meaning.specs.declared.fault.Fault.TheVariants as code_fault;
ghost use Rattle.drawing_meaning.specs.declared.fault.PageFault.TheVariants as fault;
ghost use Rattle.frame_compiler.specs.Compiles.{Compiles, first_broken};
ghost use Rattle.page_core.specs.Print.{nodes_text};
ghost use Rattle.page_meaning.specs.Fresh.{fresh_alone};
ghost use Rattle.razor_ast.specs.declared.component.Component.{Component};
ghost use Rattle.first_rendering.specs.Alone.{items_alone};
ghost use Rattle.first_rendering.specs.First.{first_items, first_page};
ghost use Rattle.frame_text.specs.Frames.{frame_lines as lines_of_frames};
ghost use Rattle.program_lines.specs.Ended.{ended_line};
ghost use Rattle.program_lines.specs.Lines.{frame_lines, page_lines, Answers};

use crate::fault::ended_line;
use cs_meaning::Fault;
use drawing_meaning::PageFault;
use first_rendering::{
    compiled_components_have_their_first_items, compiled_components_have_their_first_pages,
    first_items, first_page,
};
use frame_compiler::{CompileFault, compile};
use frame_core::Item;
use frame_program::Compiled;
use frame_text::frame_lines as lines_of_frames;
use page_core::{Node, Page, print};
use razor_ast::Component;
use sqlite_items::Items;
use std::alloc::Global;
use text_core::{Oom, Txt};

/// The program of these components, or None where their code breaks a rule.
fn compiled(alloc: Global, components: &[Component]) -> Result<Option<Compiled>, Oom>
    ensures some { IfOk result (λ found. IfSome found (Compiles components.now)) }
    ensures none { IfOk result (λ found. found ≡ None → first_broken components.now 0 components.now ≡ None → ⊥) }
{
    match compile(alloc, components) {
        Ok(program) => Ok(Some(program)),
        Err(CompileFault::Broken { .. }) => Ok(None),
        Err(CompileFault::Oom) => Err(Oom),
    }
}

/// A line as the only one.
fn only(alloc: Global, line: Txt) -> Result<Vec<Txt>, Oom>
    ensures { IfOk result (λ lines. lines.items ≡ line ∷ []) }
{
    let mut lines = Vec::new(alloc);
    lines.push(line)?;
    Ok(lines)
}

/// The line about a fault that ends a rendering, as the only one. Want of memory is none.
fn ended_lines(alloc: Global, met: PageFault) -> Result<Vec<Txt>, Oom>
    ensures lines { IfOk result (λ lines. lines.items ≡ ended_line met ∷ []) }
    ensures memory { IfOk result (λ lines. met ≡ fault.Code code_fault.Oom → ⊥) }
{
    match met {
        PageFault::Code(Fault::Oom) => Err(Oom),
        _ => only(alloc, ended_line(alloc, met)?),
    }
}

/// A page as it prints, as the only line.
fn printed_lines(alloc: Global, nodes: Items<Node>) -> Result<Vec<Txt>, Oom>
    ensures { IfOk result (λ lines. lines.items ≡ nodes_text nodes ∷ []) }
{
    let page = Page { nodes };
    only(alloc, print(alloc, &page)?)
}

/// What a compiled program writes as its page, or None where it is stuck.
fn page_of(alloc: Global, program: &Compiled) -> Result<Option<Vec<Txt>>, Oom>
    ensures { IfOk result (λ found. option_map (λ lines. lines.items) found ≡ page_lines (first_page program.now)) }
{
    match first_page(alloc, program) {
        Ok(Some(nodes)) => Ok(Some(printed_lines(alloc, nodes)?)),
        Ok(None) => Ok(None),
        Err(met) => Ok(Some(ended_lines(alloc, met)?)),
    }
}

/// The first page, or the fault that ends its rendering, as the only line; or None where the only component can't be drawn.
pub fn page_lines(alloc: Global, components: &[Component]) -> Result<Option<Vec<Txt>>, Oom>
    ensures { IfOk result (λ found. (component : Component) → components.now ≡ component ∷ []
        → Answers component (page_lines (fresh_alone component)) (option_map (λ lines. lines.items) found)) }
{
    compiled_components_have_their_first_pages();
    match compiled(alloc, components)? {
        Some(program) => page_of(alloc, &program),
        None => Ok(None),
    }
}

/// The lines of the frames of the items that the first component makes.
fn listed(alloc: Global, program: &Compiled, items: &[Item]) -> Result<Option<Vec<Txt>>, Oom>
    ensures { IfOk result (λ found. (name : List ℕ) → option_map (λ one. one.name) (slice_get program.now.components 0) ≡ Some name
        → option_map (λ lines. lines.items) found ≡ lines_of_frames name items.now) }
{
    match program.components.get(0) {
        Some(component) => lines_of_frames(alloc, &component.name, items),
        None => Ok(None),
    }
}

/// What a compiled program writes as its frames, or None where it is stuck.
fn frames_of(alloc: Global, program: &Compiled) -> Result<Option<Vec<Txt>>, Oom>
    ensures { IfOk result (λ found. (name : List ℕ) → option_map (λ one. one.name) (slice_get program.now.components 0) ≡ Some name
        → option_map (λ lines. lines.items) found ≡ frame_lines name (first_items program.now)) }
{
    match first_items(alloc, program) {
        Ok(Some(items)) => listed(alloc, program, items.as_slice()),
        Ok(None) => Ok(None),
        Err(met) => Ok(Some(ended_lines(alloc, met)?)),
    }
}

/// The frames of the first rendering, line by line, or the line about the fault that ends it; or None where the only component
/// can't be drawn.
pub fn frame_lines(alloc: Global, components: &[Component]) -> Result<Option<Vec<Txt>>, Oom>
    ensures { IfOk result (λ found. (component : Component) → components.now ≡ component ∷ []
        → Answers component (frame_lines component.name (items_alone component)) (option_map (λ lines. lines.items) found)) }
{
    compiled_components_have_their_first_items();
    match compiled(alloc, components)? {
        Some(program) => frames_of(alloc, &program),
        None => Ok(None),
    }
}

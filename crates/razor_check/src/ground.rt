// What code in a template is judged by.
ghost use Rattle.std.specs.Prelude.{◌≡◌, IfOk, OnOk, length, take};
ghost use Rattle.cs_rules.specs.Names as names_spec;
ghost use Rattle.cs_forms.specs.Agrees.{Agrees};
ghost use Rattle.cs_rules.specs.Judged.{fine};
ghost use Rattle.razor_rules.specs.Grounds as spec;
ghost use Rattle.razor_check.specs.Entering as ground;
ghost use Rattle.razor_check.specs.Going as going;

use cs_ast::{CsType, Ident};
use cs_forbidden::{Forbidden, Mark};
use cs_forms::CheckFault;
use razor_parts::locals::{cut, push_local};
use razor_rules::Ground;
use sqlite_items::Items;
use std::alloc::Global;
use std::mem;
use text_core::Oom;

/// What is forbidden in a lambda.
pub fn in_lambda(alloc: Global, g: &Ground) -> Result<Forbidden, CheckFault>
    ensures { Agrees result (fine (spec.forbidden_in_lambda g.now)) }
{
    let outside = Items::from_slice(alloc, g.marks.as_slice())?;
    Ok(Forbidden {
        outside,
        changes: None,
        invokes: None,
        bodies: Items::new(alloc),
    })
}

/// The mark of a local that is assigned in its scope, or isn't.
pub fn mark_of(assigned: bool) -> Mark
    ensures { result ≡ spec.mark_of assigned }
{
    if assigned {
        Mark::Changed
    } else {
        Mark::Steady
    }
}

/// Declares a local with a mark.
pub fn declare(g: &mut Ground, name: &Ident, cs_type: CsType, mark: Mark) -> Result<(), Oom>
    ensures does { OnOk result (g.new ≡ spec.behind_local g.old (names_spec.with_local g.old.scope name.now.name cs_type) mark) }
    ensures kept { OnOk result (going.Kept g.old g.new) }
{
    push_local(&mut g.scope, &name.name, cs_type)?;
    g.marks.push(mark)?;
    Ok(())
}

/// Where a ground is to go back to, when what was declared in it ends.
#[derive(Clone, Copy, Debug)]
pub struct Depth {
    pub names: usize,
    pub marks: usize,
}

/// How many names and marks there are.
pub fn depth_of(g: &Ground) -> Depth
    ensures names { result.names ≡ length g.now.scope.names }
    ensures marks { result.marks ≡ length g.now.marks }
{
    Depth {
        names: g.scope.names.len(),
        marks: g.marks.len(),
    }
}

fn cut_marks(marks: &mut Items<Mark>, depth: usize)
    ensures { marks.new ≡ take depth marks.old }
{
    while marks.len() > depth {
        marks.pop();
    }
}

/// Ends what was declared behind this.
pub fn back(g: &mut Ground, depth: Depth)
    ensures { g.new ≡ ground.cut_to depth.names depth.marks g.old }
{
    cut(&mut g.scope.names, depth.names);
    cut_marks(&mut g.marks, depth.marks);
}

/// What is to be put back behind a fragment.
#[derive(Debug, Drop)]
pub struct Left {
    pub outside: Items<Mark>,
    pub in_switch: bool,
}

/// Enters a fragment: all locals are outside of it.
pub fn enter_fragment(alloc: Global, g: &mut Ground) -> Result<Left, Oom>
    ensures { IfOk result (λ left. ground.Entered left.outside left.in_switch g.old g.new) }
{
    let marks = Items::from_slice(alloc, g.marks.as_slice())?;
    let outside = mem::replace(&mut g.forbidden.outside, marks);
    let in_switch = g.in_switch;
    g.in_switch = false;
    Ok(Left { outside, in_switch })
}

/// Leaves a fragment.
pub fn leave_fragment(g: &mut Ground, left: Left)
    ensures { g.new ≡ ground.left_as left.outside left.in_switch g.old }
{
    g.forbidden.outside = left.outside;
    g.in_switch = left.in_switch;
}

// The names of faults.
ghost use Rattle.std.specs.Prelude.{◌≡◌, IfOk, IsTrue};
ghost use Rattle.text_core.specs.Ascii.{is_ascii};
ghost use Rattle.program_lines.specs.Ended.{code_fault_name, ended_line, fault_name};

use cs_meaning::Fault;
use drawing_meaning::PageFault;
use std::alloc::Global;
use text_core::{Oom, Txt};

/// The name of a fault of code.
fn code_fault_name(fault: Fault) -> &'static str
    ensures name { result.now ≡ code_fault_name fault }
    ensures ascii { IsTrue (is_ascii result.now) }
{
    match fault {
        Fault::DivideByZero => "DivideByZero",
        Fault::Overflow => "Overflow",
        Fault::NullUse => "NullUse",
        Fault::IndexOutOfRange => "IndexOutOfRange",
        Fault::FuelSpent => "FuelSpent",
        Fault::CallDepth => "CallDepth",
        Fault::ValueTooLarge => "ValueTooLarge",
        Fault::Oom => "Memory",
    }
}

/// The name of the fault that ends a rendering.
fn fault_name(fault: PageFault) -> &'static str
    ensures name { result.now ≡ fault_name fault }
    ensures ascii { IsTrue (is_ascii result.now) }
{
    match fault {
        PageFault::Code(fault) => code_fault_name(fault),
        PageFault::DuplicateKey => "DuplicateKey",
        PageFault::PageTooLarge => "PageTooLarge",
    }
}

/// The line about the fault that ends a rendering.
pub fn ended_line(alloc: Global, fault: PageFault) -> Result<Txt, Oom>
    ensures { IfOk result (λ line. line ≡ ended_line fault) }
{
    let mut line = Txt::new(alloc);
    line.push_str("ended ")?;
    line.push_str(fault_name(fault))?;
    Ok(line)
}

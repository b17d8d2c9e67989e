// Broken rules of code, as they are found.
ghost use Rattle.std.specs.Prelude.{◌≡◌, OnOk};
ghost use Rattle.cs_rules.specs.Judged.{Judged};
ghost use Rattle.cs_forms.specs.Agrees.{Agrees};
ghost use Rattle.cs_ast.specs.declared.code.Code as rules_code;
ghost use Rattle.cs_ast.specs.declared.cs_type.CsType as type_code;
ghost use Rattle.razor_rules.specs.Findings as spec;

use cs_ast::{Code, CsType};
use cs_forms::CheckFault;
use rule_findings::Findings;
use text_core::Oom;

/// The rule that something breaks, if it breaks one.
#[tactic(auto, using(razor_rules::proofs::FirstLaws::also_nothing))]
pub fn note(found: &mut Findings, checked: Result<(), CheckFault>) -> Result<(), Oom>
    ensures { (judged : Judged (Unit {0})) → Agrees checked judged → OnOk result (found.new.first ≡ spec.also found.old.first (spec.found judged)) }
{
    match checked {
        Ok(()) => Ok(()),
        Err(CheckFault::Broken { rule, place }) => {
            found.add(rule, place);
            Ok(())
        }
        Err(CheckFault::Oom) => Err(Oom),
    }
}

/// The same of code.
#[tactic(auto, using(razor_rules::proofs::FirstLaws::also_nothing))]
pub fn note_code(found: &mut Findings, checked: Result<Code, CheckFault>) -> Result<(), Oom>
    ensures { (judged : Judged rules_code.Code) → Agrees checked judged → OnOk result (found.new.first ≡ spec.also found.old.first (spec.found judged)) }
{
    match checked {
        Ok(_) => Ok(()),
        Err(CheckFault::Broken { rule, place }) => {
            found.add(rule, place);
            Ok(())
        }
        Err(CheckFault::Oom) => Err(Oom),
    }
}

/// The same of a type.
#[tactic(auto, using(razor_rules::proofs::FirstLaws::also_nothing))]
pub fn note_type(found: &mut Findings, checked: Result<CsType, CheckFault>) -> Result<(), Oom>
    ensures { (judged : Judged type_code.CsType) → Agrees checked judged → OnOk result (found.new.first ≡ spec.also found.old.first (spec.found judged)) }
{
    match checked {
        Ok(_) => Ok(()),
        Err(CheckFault::Broken { rule, place }) => {
            found.add(rule, place);
            Ok(())
        }
        Err(CheckFault::Oom) => Err(Oom),
    }
}

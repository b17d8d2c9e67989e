// Laws of the rules. Each function does nothing: its contract is the law.
ghost use Rattle.std.specs.Prelude.{◌≡◌, List, Option};
ghost use Rattle.razor_ast.specs.declared.component.Component.{Component};
ghost use Rattle.razor_rules.specs.declared.finding.Broken.{Broken};
ghost use Rattle.razor_rules.specs.Findings.{first_of, IsFirst};
ghost use Rattle.razor_rules.specs.Programs.{Finding, BreaksFirst};

/// The first of the rules that a file breaks is one of them, and none of them comes before it.
pub fn no_broken_rule_comes_before_the_first()
    ensures { (all : List Broken) → IsFirst all (first_of all) }
{}

/// A program breaks one rule first, or none, and never both.
pub fn a_program_breaks_one_rule_first()
    ensures { (components : List Component) (one : Option Finding) (another : Option Finding)
        → BreaksFirst components one → BreaksFirst components another → one ≡ another }
{}

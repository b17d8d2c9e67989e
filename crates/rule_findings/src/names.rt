// Names that stand twice where each may stand once.
ghost use Rattle.std.specs.Prelude.{◌≡◌, ◌++◌, [], map, not};
ghost use Rattle.razor_rules.specs.Findings.{also};
ghost use Rattle.razor_rules.specs.Names as spec;
ghost use Rattle.rule_findings.specs.Views.{text_of, ident_of};

use crate::Findings;
use cs_rules::Rule;
use text_core::{Place, Txt};

/// A name where it stands.
#[derive(Clone, Copy, Debug)]
pub struct Name<'a> {
    pub place: Place,
    pub text: &'a Txt,
}

/// Whether a name is among these.
pub fn is_among(text: &Txt, names: &[Name<'_>]) -> bool
    ensures { result ≡ spec.is_among text.now (map text_of names.now) }
{
    for one in names {
        if *text == *one.text {
            return true;
        }
    }
    false
}

/// Whether a name is among neither of these.
#[tactic(auto, using(crate::proofs::NameLemmas::not_among))]
fn is_free(text: &Txt, before: &[Name<'_>], others: &[Name<'_>]) -> bool
    ensures { result ≡ not (spec.is_among text.now (map text_of before.now ++ map text_of others.now)) }
{
    !is_among(text, before) && !is_among(text, others)
}

/// Finds each name that stands among those before it, or among other ones.
#[tactic(auto, using(razor_rules::proofs::FirstLaws::also_nothing))]
pub fn repeated_behind(rule: Rule, before: &[Name<'_>], names: &[Name<'_>], found: &mut Findings)
    ensures { found.new.first ≡ also found.old.first (spec.repeated rule (map text_of before.now) (map ident_of names.now)) }
{
    for at in 0..names.len() {
        let one = names[at];
        let free = is_free(one.text, before, &names[..at]);
        found.add_unless(free, rule, one.place);
    }
}

/// Finds each name that stands among those before it.
pub fn repeated(rule: Rule, names: &[Name<'_>], found: &mut Findings)
    ensures { found.new.first ≡ also found.old.first (spec.repeated rule [] (map ident_of names.now)) }
{
    repeated_behind(rule, &[], names, found);
}

// Broken rules as they are found.
ghost use Rattle.std.specs.Prelude.{◌≡◌, [], ◌∷◌, Some, None};
ghost use Rattle.razor_rules.specs.Findings as spec;

use cs_rules::Rule;
use razor_rules::Broken;
use text_core::Place;

/// The first of the broken rules that were found so far in a file.
#[derive(Clone, Copy, Debug, PartialEq, Eq)]
pub struct Findings {
    pub first: Option<Broken>,
}

/// The number of a rule.
#[tactic(auto, unfolding(razor_rules::specs::Findings::number_of))]
fn number_of(rule: Rule) -> u32
    ensures { result ≡ spec.number_of rule }
{
    match rule {
        Rule::DuplicateComponent => 1,
        Rule::BadComponentName => 2,
        Rule::DuplicateName => 3,
        Rule::UnknownComponent => 4,
        Rule::UnknownParameter => 5,
        Rule::DuplicateAttribute => 6,
        Rule::MixedContent => 7,
        Rule::UnknownName => 8,
        Rule::UnknownType => 9,
        Rule::TypeMismatch => 10,
        Rule::NotAssigned => 11,
        Rule::ParameterAssigned => 12,
        Rule::ForCapture => 13,
        Rule::ChangedCapture => 14,
        Rule::ImpureTemplate => 15,
        Rule::CallbackInLifecycle => 16,
        Rule::LoopJump => 17,
        Rule::BadKey => 18,
        Rule::BadBind => 19,
        Rule::BadLifecycle => 20,
        Rule::MissingReturn => 21,
        Rule::RecursiveRecord => 22,
    }
}

/// Whether the first comes before the second.
#[tactic(auto, unfolding(razor_rules::specs::Findings::comes_before))]
fn comes_before(x: Broken, y: Broken) -> bool
    ensures { result ≡ spec.comes_before x y }
{
    x.place.line < y.place.line
        || x.place.line == y.place.line
            && (x.place.column < y.place.column
                || x.place.column == y.place.column && number_of(x.rule) < number_of(y.rule))
}

/// The first of either.
fn merged(one: Option<Broken>, other: Broken) -> Broken
    ensures { spec.merged one (Some other) ≡ Some result }
{
    match one {
        Some(first) => {
            if comes_before(other, first) {
                other
            } else {
                first
            }
        }
        None => other,
    }
}

impl Findings {
    /// Nothing is found yet.
    pub fn new() -> Self
        ensures { result.first ≡ None }
    {
        Findings { first: None }
    }

    /// One more broken rule.
    #[tactic(auto, unfolding(razor_rules::specs::Findings::also))]
    pub fn add(&mut self, rule: Rule, place: Place)
        ensures { self.new.first ≡ spec.also self.old.first (spec.broken rule place ∷ []) }
    {
        let one = Broken { rule, place };
        self.first = Some(merged(self.first, one));
    }

    /// A broken rule where a test fails.
    #[tactic(auto, using(razor_rules::proofs::FirstLaws::also_nothing))]
    pub fn add_unless(&mut self, holds: bool, rule: Rule, place: Place)
        ensures { self.new.first ≡ spec.also self.old.first (spec.broken_unless holds rule place) }
    {
        if !holds {
            self.add(rule, place);
        }
    }
}

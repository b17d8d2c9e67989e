use cs_rules::Rule;
use text_core::Place;

/// A rule that is broken in a file, and where.
#[derive(Clone, Copy, Debug, PartialEq, Eq)]
pub struct Broken {
    pub rule: Rule,
    pub place: Place,
}

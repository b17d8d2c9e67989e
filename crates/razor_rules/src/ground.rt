use cs_ast::Scope;
use cs_forbidden::{Forbidden, Mark};
use sqlite_items::Items;

/// What code at a place of a template is judged by.
#[derive(Debug, Drop)]
pub struct Ground {
    pub scope: Scope,
    /// The marks of the locals in scope.
    pub marks: Items<Mark>,
    /// What is forbidden in code that is run when the template is.
    pub forbidden: Forbidden,
    /// Whether a `break` there is that of a `switch`.
    pub in_switch: bool,
}

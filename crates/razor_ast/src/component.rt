use crate::TNode;
use cs_ast::Member;
use sqlite_items::Items;
use text_core::Txt;

/// What a file spells: its stem, whether it has `@implements IDisposable`, the members of its `@code`, and its content.
#[derive(Debug, Drop)]
pub struct Component {
    pub name: Txt,
    pub disposes: bool,
    pub members: Items<Member>,
    pub nodes: Items<TNode>,
}

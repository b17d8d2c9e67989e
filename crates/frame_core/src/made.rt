// What components are made of.
use cs_ast::CsType;
use text_core::Txt;

/// What a component item is of.
#[derive(Debug, Drop)]
pub enum Made {
    /// A component of the program, by its position.
    Component(u32),
    /// The provider of values of this type, under a name if it has one.
    Provider { cs_type: CsType, name: Option<Txt> },
}

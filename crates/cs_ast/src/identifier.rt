use text_core::{Place, Txt};

/// A name where it stands in a text.
#[derive(Debug, Drop)]
pub struct Ident {
    pub place: Place,
    pub name: Txt,
}

use page_core::{Attributes, HandlerIds};

/// What an element has under its names: a name has an attribute's text or a handler, not both.
#[derive(Debug, Drop)]
pub struct Names {
    pub attributes: Attributes,
    pub handlers: HandlerIds,
}

/// A place in a text, by line and column, both from 1. A column counts characters, and a line feed alone ends a line.
#[derive(Clone, Copy, Debug, PartialEq, Eq, PartialOrd, Ord, Hash)]
pub struct Place {
    pub line: u32,
    pub column: u32,
}

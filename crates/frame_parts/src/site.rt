// Where the code of a component stands.
use razor_parts::home::Home;

/// A component in its program.
#[derive(Drop)]
pub struct Site<'a> {
    pub home: Home<'a>,
}

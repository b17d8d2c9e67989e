/// How many edits of each kind a batch makes.
#[derive(Clone, Copy, Debug, PartialEq, Eq)]
pub struct Counts {
    /// Nodes put in.
    pub prepend: u32,
    /// Nodes taken out.
    pub remove: u32,
    /// Attributes and handlers set.
    pub set: u32,
    /// Attributes and handlers taken away.
    pub unset: u32,
    /// Texts changed.
    pub text: u32,
    /// Elements gone into.
    pub step_in: u32,
    /// Elements left again.
    pub step_out: u32,
    /// Raw markup changed.
    pub markup: u32,
    /// Places that a permutation moves.
    pub moves: u32,
    /// Permutations.
    pub ends: u32,
}

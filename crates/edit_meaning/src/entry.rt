/// An entry of a permutation: what stands at `from` comes to stand at `to`.
#[derive(Clone, Copy, Debug, PartialEq, Eq)]
pub struct Entry {
    pub from: u32,
    pub to: u32,
}

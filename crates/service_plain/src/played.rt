use base_types::Items;
use tree_answers::Tree;
use tree_calls::Entry;

/// How a script went.
#[derive(Drop)]
pub struct Played {
    /// The tree before it.
    pub start: Tree,
    /// What happened, in order.
    pub history: Items<Entry>,
    /// The tree after it.
    pub last: Tree,
    /// The places of the script's lines, from 0, in the order in which they went; those that make the filesets come
    /// before.
    pub order: Items<usize>,
}

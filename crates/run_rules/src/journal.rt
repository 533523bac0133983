use crate::step::Step;
use base_types::Items;
use tree_answers::Tree;

/// What happened in a run.
#[derive(Drop)]
pub struct Journal {
    /// The tree at the start, alone; nothing where no run began.
    pub start: Items<Tree>,
    /// The epoch in which each server starts, from the first server on.
    pub epochs: Items<u64>,
    /// The steps of all nodes, in order.
    pub steps: Items<Step>,
}

use base_types::{Fid, FilesetId, Items, Name};
use store_state::Stay;
use tree_calls::Refusal;
use tree_filesets::Fileset;

/// Where a place leads.
#[derive(Clone, Copy, PartialEq)]
pub enum Looked {
    /// To this object.
    Found(Fid),
    /// Nowhere, for this reason.
    Refused(Refusal),
}

/// What is told of a slot that is used.
#[derive(Drop)]
pub struct Slot {
    /// Its number in the table, from 0.
    pub at: u32,
    /// The fileset.
    pub fileset: FilesetId,
    /// The fileset's name.
    pub name: Name,
    /// How many objects it may have, its root counted.
    pub objects: u32,
    /// How often it has moved from one server to another, when it was here last.
    pub moves: u32,
    /// How it stays.
    pub stay: Stay,
}

/// The filesets that a store keeps, and what it has for further ones.
#[derive(Drop)]
pub struct Kept {
    /// The blocks that it offers to promises.
    pub capacity: u32,
    /// The number of its next fileset, from 1.
    pub next: u32,
    /// The filesets that are here or leaving, in the order of their slots, with nothing unsaved.
    pub filesets: Items<Fileset>,
}

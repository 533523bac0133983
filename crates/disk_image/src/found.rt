/// An entry of a directory: it leads from the directory's anode to another one, under a unique number. Anodes
/// are counted from 1.
#[derive(Clone, Copy)]
pub struct Link {
    pub from: u8,
    pub to: u32,
    pub unique: u32,
}

/// A pointer of an anode, which is 0 for none or else the number of a block and one.
#[derive(Clone, Copy)]
pub struct Use {
    pub pointer: u32,
    /// The slot of the anode, from 0.
    pub slot: u8,
    /// Whether it names an indirect block.
    pub is_map: bool,
    /// Whether it counts: the pointers of an indirect block that more than one anode names count once.
    pub is_counted: bool,
}

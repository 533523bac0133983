//! Who is told before nodes go on.

use base_types::Node;

/// Who is told before nodes go on, as a test that holds one of them at a line. No promise of a run rests on it.
pub trait Gate {
    /// A node with lines left has its turn, and was given what there was for it: now it takes that, and this line, its
    /// next one, goes where it can, and perhaps more behind it. The number is the line's. It may wait.
    fn before(&self, node: Node, line: u32);
}

/// A gate that holds nobody.
#[derive(Clone, Copy)]
pub struct OpenGate;

impl Gate for OpenGate {
    fn before(&self, _node: Node, _line: u32) {}
}

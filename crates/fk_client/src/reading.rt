use fk_tree::Node;

/// A read that was made and isn't answered.
#[derive(Drop)]
pub struct Reading {
    /// The node that it found, or none.
    pub node: Option<Node>,
    /// The transaction that the node's record stands at.
    pub stamp: u64,
    /// Whether the client looked since, so that it waits for its registration.
    pub looked: bool,
}

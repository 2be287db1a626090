//! What the calls of a user store answer.

use crate::id_set::IdSet;
use fk_tree::Node;

/// What a path shows.
#[derive(Drop)]
pub enum UserRead<'a> {
    /// The node, where there is one, and the transaction that the record stands at.
    Shown { node: Option<&'a Node>, stamp: u64 },
    Failed,
}

/// The last publication.
#[derive(Drop)]
pub enum UserLook<'a> {
    Shown { mark: u64, epoch: &'a IdSet },
    Failed,
}

/// What becomes of a put.
#[derive(Clone, Copy, Debug, PartialEq, Eq)]
pub enum PutRecord {
    Done,
    /// The record stands at this transaction, which isn't below the one that was put.
    Already(u64),
    Failed,
    NoMemory,
}

/// What becomes of a publication.
#[derive(Clone, Copy, Debug, PartialEq, Eq)]
pub enum Publish {
    Done,
    /// This transaction was published, which isn't below the one to publish.
    Already(u64),
    Failed,
    NoMemory,
}

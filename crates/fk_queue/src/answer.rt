//! What the calls of a post answer.

/// What becomes of a push.
#[derive(Clone, Copy, Debug, PartialEq, Eq)]
pub enum Posted {
    /// The message stands at the end of its lane, under this number.
    At(u64),
    Failed,
    /// Nothing changed.
    NoMemory,
}

/// What becomes of an acknowledgement.
#[derive(Clone, Copy, Debug, PartialEq, Eq)]
pub enum Ack {
    /// The head had this number, and was removed.
    Acked,
    /// The lane is empty or its head has another number; nothing changed.
    NotHead,
    Failed,
}

use fk_base::Path;

/// The operation before which a leader stands.
#[derive(Drop)]
pub enum State {
    Commit,
    Pending,
    Drop,
    Sweep,
    /// The record of this path is put next.
    Put(Path),
    Publish,
    Notify,
    Reply,
    Done,
    Ack,
    Ended,
}

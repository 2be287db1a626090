/// What may happen in a run. A session is a client's place in the file, from 1; functions are
/// numbered from 1 in the order in which they start.
#[derive(Clone, Copy, Debug, PartialEq, Eq)]
pub enum Event {
    /// A client takes its next turn.
    Client(u32),
    /// A follower starts on the head of a session's lane.
    Deliver(u32),
    /// A leader starts on the head of the leader lane.
    Leader,
    /// A watch function starts on the head of the watch lane.
    Watch,
    /// A heartbeat of a session starts.
    Beat(u32),
    /// A function makes its next operation.
    Step(u64),
    /// A function ends where it stands.
    Crash(u64),
    /// A function's next operation fails, and it ends.
    Fail(u64),
    /// A client's next operation fails.
    FailClient(u32),
    /// The clock shows this moment, unless it shows a later one.
    Clock(u64),
}

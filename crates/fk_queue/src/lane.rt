ghost use Rattle.std.specs.Prelude.{◌≡◌};
ghost use Rattle.fk_queue.specs.Places.{place_of};

/// A queue of the post. Sessions are numbered from 1.
#[derive(Clone, Copy, Debug, PartialEq, Eq)]
pub enum Lane {
    /// The pushes of followers, for the leader.
    Leader,
    /// The notes of fired watches.
    Watch,
    /// The requests of a session.
    Session(u32),
    /// What a session's client is told.
    Inbox(u32),
}

/// Where a lane stands among the queues of a post.
pub fn place_of(lane: Lane) -> usize
    ensures { result ≡ place_of lane }
{
    match lane {
        Lane::Leader => 0,
        Lane::Watch => 1,
        Lane::Session(session) => 2 * session as usize,
        Lane::Inbox(session) => 2 * session as usize + 1,
    }
}

//! What the services hold in worked runs, evaluated.

ghost use Rattle.fk_stand.specs.Outcomes.{EvictionIsKept, EvictionIsTold, LossIsKept, LossIsTold, PartsAreSaid, RefusalIsKept, RefusalIsTold};
ghost use Rattle.fk_stand.specs.Worked.{CreateIsCommitted, CreateIsPublished, CreateIsPushed, CreateIsSent, CreateIsTold, CreateTakesABlock, LanesAreEmptied, WatchFires, WatchIsTold};

/// A create waits in its session's lane.
#[tactic(auto, using(crate::proofs::Evaluated::create_sent))]
pub fn create_is_sent()
    ensures { CreateIsSent }
{}

/// A pushed create waits in the leader's lane.
#[tactic(auto, using(crate::proofs::Evaluated::create_pushed))]
pub fn create_is_pushed()
    ensures { CreateIsPushed }
{}

/// The reply waits in the client's inbox.
#[tactic(auto, using(crate::proofs::Evaluated::create_told))]
pub fn create_is_told()
    ensures { CreateIsTold }
{}

/// At the end each lane is empty and has counted its messages.
pub fn lanes_are_emptied()
    ensures { LanesAreEmptied }
{}

/// A create that waits takes a block of memory; at the end none is taken.
#[tactic(auto, using(crate::proofs::Evaluated::create_blocks))]
pub fn create_takes_a_block()
    ensures { CreateTakesABlock }
{}

/// The table's records before and after the commit.
pub fn create_is_committed()
    ensures { CreateIsCommitted }
{}

/// The user records and the mark, put by put.
pub fn create_is_published()
    ensures { CreateIsPublished }
{}

/// A watch is set, fires, is held in an epoch and is told.
pub fn watch_fires()
    ensures { WatchFires }
{}

/// The note of a fired watch, and the messages of its client.
#[tactic(auto, using(crate::proofs::Evaluated::watch_told))]
pub fn watch_is_told()
    ensures { WatchIsTold }
{}

/// A refusal is kept, and its locks are released.
pub fn refusal_is_kept()
    ensures { RefusalIsKept }
{}

/// The message of a refusal.
#[tactic(auto, using(crate::proofs::Evaluated::refusal_told))]
pub fn refusal_is_told()
    ensures { RefusalIsTold }
{}

/// A lock that was lost is kept as lost.
pub fn loss_is_kept()
    ensures { LossIsKept }
{}

/// The message of a loss.
#[tactic(auto, using(crate::proofs::Evaluated::loss_told))]
pub fn loss_is_told()
    ensures { LossIsTold }
{}

/// A session's pings and its eviction.
pub fn eviction_is_kept()
    ensures { EvictionIsKept }
{}

/// The messages of an eviction.
#[tactic(auto, using(crate::proofs::Evaluated::eviction_told))]
pub fn eviction_is_told()
    ensures { EvictionIsTold }
{}

/// The messages of requests of several parts.
#[tactic(auto, using(crate::proofs::Evaluated::parts_said))]
pub fn parts_are_said()
    ensures { PartsAreSaid }
{}

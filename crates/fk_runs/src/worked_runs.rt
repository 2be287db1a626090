//! Worked runs, evaluated by the rules.

ghost use Rattle.fk_runs.specs.AfterTheEnd.{AfterTheEndIsAnswered, AfterTheEndIsPlayed, AfterTheEndIsScheduled};
ghost use Rattle.fk_runs.specs.AtTheLimits.{AtTheLimitsIsAnswered, AtTheLimitsIsPlayed, AtTheLimitsIsScheduled};
ghost use Rattle.fk_runs.specs.BehindEviction.{BehindEvictionIsAnswered, BehindEvictionIsPlayed, BehindEvictionIsScheduled};
ghost use Rattle.fk_runs.specs.DroppedPush.{DroppedPushIsAnswered, DroppedPushIsPlayed, DroppedPushIsScheduled};
ghost use Rattle.fk_runs.specs.FailingClient.{FailingClientIsAnswered, FailingClientIsPlayed, FailingClientIsScheduled};
ghost use Rattle.fk_runs.specs.LateReplies.{LateRepliesIsAnswered, LateRepliesIsPlayed, LateRepliesIsScheduled};
ghost use Rattle.fk_runs.specs.MultiBehindEviction.{MultiBehindEvictionIsAnswered, MultiBehindEvictionIsPlayed, MultiBehindEvictionIsScheduled};
ghost use Rattle.fk_runs.specs.PassedOn.{PassedOnIsAnswered, PassedOnIsPlayed, PassedOnIsScheduled};
ghost use Rattle.fk_runs.specs.PingsAndPongs.{PingsAndPongsIsAnswered, PingsAndPongsIsPlayed, PingsAndPongsIsScheduled};
ghost use Rattle.fk_runs.specs.RefusalNumbers.{RefusalNumbersIsAnswered, RefusalNumbersIsPlayed, RefusalNumbersIsScheduled};
ghost use Rattle.fk_runs.specs.SeenUnanswered.{SeenUnansweredIsAnswered, SeenUnansweredIsPlayed, SeenUnansweredIsScheduled};
ghost use Rattle.fk_runs.specs.TwoFollowers.{TwoFollowersIsAnswered, TwoFollowersIsPlayed, TwoFollowersIsScheduled};
ghost use Rattle.fk_runs.specs.TwoWatches.{TwoWatchesIsAnswered, TwoWatchesIsPlayed, TwoWatchesIsScheduled};
ghost use Rattle.fk_runs.specs.WatchNumbers.{WatchNumbersIsAnswered, WatchNumbersIsPlayed, WatchNumbersIsScheduled};
ghost use Rattle.fk_runs.specs.WholeSchedule.{WholeScheduleIsAnswered, WholeScheduleIsPlayed, WholeScheduleIsScheduled};

/// A refusal whose lock passed on is answered as lost.
#[tactic(auto, using(crate::proofs::PassedOn::is_played, crate::proofs::PassedOn::is_scheduled, crate::proofs::PassedOn::is_answered))]
pub fn passed_on()
    ensures played { PassedOnIsPlayed }
    ensures scheduled { PassedOnIsScheduled }
    ensures answered { PassedOnIsAnswered }
{}

/// A push whose lock passed on is dropped by its leader.
#[tactic(auto, using(crate::proofs::DroppedPush::is_played, crate::proofs::DroppedPush::is_scheduled, crate::proofs::DroppedPush::is_answered))]
pub fn dropped_push()
    ensures played { DroppedPushIsPlayed }
    ensures scheduled { DroppedPushIsScheduled }
    ensures answered { DroppedPushIsAnswered }
{}

/// Requests behind an eviction are refused for their closed session.
#[tactic(auto, using(crate::proofs::BehindEviction::is_played, crate::proofs::BehindEviction::is_scheduled, crate::proofs::BehindEviction::is_answered))]
pub fn behind_eviction()
    ensures played { BehindEvictionIsPlayed }
    ensures scheduled { BehindEvictionIsScheduled }
    ensures answered { BehindEvictionIsAnswered }
{}

/// A request of several parts that waits behind an eviction is refused as well.
#[tactic(auto, using(crate::proofs::MultiBehindEviction::is_played, crate::proofs::MultiBehindEviction::is_scheduled, crate::proofs::MultiBehindEviction::is_answered))]
pub fn multi_behind_eviction()
    ensures played { MultiBehindEvictionIsPlayed }
    ensures scheduled { MultiBehindEvictionIsScheduled }
    ensures answered { MultiBehindEvictionIsAnswered }
{}

/// A client has seen its change before it is answered.
#[tactic(auto, using(crate::proofs::SeenUnanswered::is_played, crate::proofs::SeenUnanswered::is_scheduled, crate::proofs::SeenUnanswered::is_answered))]
pub fn seen_unanswered()
    ensures played { SeenUnansweredIsPlayed }
    ensures scheduled { SeenUnansweredIsScheduled }
    ensures answered { SeenUnansweredIsAnswered }
{}

/// One push fires the watches of two paths, and a late leader notes none again.
#[tactic(auto, using(crate::proofs::TwoWatches::is_played, crate::proofs::TwoWatches::is_scheduled, crate::proofs::TwoWatches::is_answered))]
pub fn two_watches()
    ensures played { TwoWatchesIsPlayed }
    ensures scheduled { TwoWatchesIsScheduled }
    ensures answered { TwoWatchesIsAnswered }
{}

/// Watches are numbered as they are set, one of a path and kind.
#[tactic(auto, using(crate::proofs::WatchNumbers::is_played, crate::proofs::WatchNumbers::is_scheduled, crate::proofs::WatchNumbers::is_answered))]
pub fn watch_numbers()
    ensures played { WatchNumbersIsPlayed }
    ensures scheduled { WatchNumbersIsScheduled }
    ensures answered { WatchNumbersIsAnswered }
{}

/// Heartbeats ping, are answered, and wait.
#[tactic(auto, using(crate::proofs::PingsAndPongs::is_played, crate::proofs::PingsAndPongs::is_scheduled, crate::proofs::PingsAndPongs::is_answered))]
pub fn pings_and_pongs()
    ensures played { PingsAndPongsIsPlayed }
    ensures scheduled { PingsAndPongsIsScheduled }
    ensures answered { PingsAndPongsIsAnswered }
{}

/// Refusals speak of the tree that they were checked on.
#[tactic(auto, using(crate::proofs::RefusalNumbers::is_played, crate::proofs::RefusalNumbers::is_scheduled, crate::proofs::RefusalNumbers::is_answered))]
pub fn refusal_numbers()
    ensures played { RefusalNumbersIsPlayed }
    ensures scheduled { RefusalNumbersIsScheduled }
    ensures answered { RefusalNumbersIsAnswered }
{}

/// Paths and data at their limits, and beyond them.
pub fn at_the_limits()
    ensures played { AtTheLimitsIsPlayed }
    ensures scheduled { AtTheLimitsIsScheduled }
    ensures answered { AtTheLimitsIsAnswered }
{}

/// Replies come in the order of the commands, however late they are told.
#[tactic(auto, using(crate::proofs::LateReplies::is_played, crate::proofs::LateReplies::is_scheduled, crate::proofs::LateReplies::is_answered))]
pub fn late_replies()
    ensures played { LateRepliesIsPlayed }
    ensures scheduled { LateRepliesIsScheduled }
    ensures answered { LateRepliesIsAnswered }
{}

/// Messages come to a client after the end of its session.
#[tactic(auto, using(crate::proofs::AfterTheEnd::is_played, crate::proofs::AfterTheEnd::is_scheduled, crate::proofs::AfterTheEnd::is_answered))]
pub fn after_the_end()
    ensures played { AfterTheEndIsPlayed }
    ensures scheduled { AfterTheEndIsScheduled }
    ensures answered { AfterTheEndIsAnswered }
{}

/// Two followers work on one message, and settle it once.
#[tactic(auto, using(crate::proofs::TwoFollowers::is_played, crate::proofs::TwoFollowers::is_scheduled, crate::proofs::TwoFollowers::is_answered))]
pub fn two_followers()
    ensures played { TwoFollowersIsPlayed }
    ensures scheduled { TwoFollowersIsScheduled }
    ensures answered { TwoFollowersIsAnswered }
{}

/// Each operation of a client fails once.
#[tactic(auto, using(crate::proofs::FailingClient::is_played, crate::proofs::FailingClient::is_scheduled, crate::proofs::FailingClient::is_answered))]
pub fn failing_client()
    ensures played { FailingClientIsPlayed }
    ensures scheduled { FailingClientIsScheduled }
    ensures answered { FailingClientIsAnswered }
{}

/// Two clients, a drain that ends five functions in flight, a watch function, and a last drain.
pub fn whole_schedule()
    ensures played { WholeScheduleIsPlayed }
    ensures scheduled { WholeScheduleIsScheduled }
    ensures answered { WholeScheduleIsAnswered }
{}

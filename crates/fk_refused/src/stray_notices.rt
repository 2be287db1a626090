//! Notifications that fit no watch.

ghost use Rattle.fk_refused.specs.Notices.{NoticeBeforeItsLine, NoticeOfAnotherClient, NoticeOfAnotherKind, NoticeOfAnotherPath, NoticeOfItsOwnNumber, NoticeOfTheLaterChange, NoticesOutOfOrder, OtherChange, OtherTransaction, SecondNotice};

/// A notification shows another change than its transaction made.
#[tactic(auto, using(crate::proofs::Notices::other_change))]
pub fn other_change()
    ensures { OtherChange }
{}

/// A notification shows another transaction than the one that fired its watch.
#[tactic(auto, using(crate::proofs::Notices::other_transaction))]
pub fn other_transaction()
    ensures { OtherTransaction }
{}

/// A notification is of a kind of which no watch is held.
#[tactic(auto, using(crate::proofs::Notices::notice_of_another_kind))]
pub fn notice_of_another_kind()
    ensures { NoticeOfAnotherKind }
{}

/// A notification is of a path of which no watch is held.
#[tactic(auto, using(crate::proofs::Notices::notice_of_another_path))]
pub fn notice_of_another_path()
    ensures { NoticeOfAnotherPath }
{}

/// A notification comes to a client that holds no watch.
#[tactic(auto, using(crate::proofs::Notices::notice_of_another_client))]
pub fn notice_of_another_client()
    ensures { NoticeOfAnotherClient }
{}

/// A watch is notified twice.
#[tactic(auto, using(crate::proofs::Notices::second_notice))]
pub fn second_notice()
    ensures { SecondNotice }
{}

/// A notification comes before the transaction line that fires its watch.
#[tactic(auto, using(crate::proofs::Notices::notice_before_its_line))]
pub fn notice_before_its_line()
    ensures { NoticeBeforeItsLine }
{}

/// A watch is notified of the transaction at which it was set.
#[tactic(auto, using(crate::proofs::Notices::notice_of_its_own_number))]
pub fn notice_of_its_own_number()
    ensures { NoticeOfItsOwnNumber }
{}

/// A client is notified of transaction 2, and then of transaction 1.
#[tactic(auto, using(crate::proofs::Notices::notices_out_of_order))]
pub fn notices_out_of_order()
    ensures { NoticesOutOfOrder }
{}

/// A notification shows the second transaction that touched its path.
#[tactic(auto, using(crate::proofs::Notices::notice_of_the_later_change))]
pub fn notice_of_the_later_change()
    ensures { NoticeOfTheLaterChange }
{}

//! Reads of older trees.

ghost use Rattle.fk_refused.specs.Views.{OlderMissing, OlderRead, ReadBehindANotice, ReadBehindARead, ReadBehindAnExpiry};

/// A client reads tree 0 after its create made tree 1.
#[tactic(auto, using(crate::proofs::Views::older_read))]
pub fn older_read()
    ensures { OlderRead }
{}

/// A client finds no node in tree 0 after its create made tree 1.
#[tactic(auto, using(crate::proofs::Views::older_missing))]
pub fn older_missing()
    ensures { OlderMissing }
{}

/// A client reads tree 0 after it was notified of transaction 1.
#[tactic(auto, using(crate::proofs::Views::read_behind_a_notice))]
pub fn read_behind_a_notice()
    ensures { ReadBehindANotice }
{}

/// A read is refused at tree 1 after its client was told that transaction 2 closed its session.
#[tactic(auto, using(crate::proofs::Views::read_behind_an_expiry))]
pub fn read_behind_an_expiry()
    ensures { ReadBehindAnExpiry }
{}

/// A client reads tree 1 after it read tree 2.
#[tactic(auto, using(crate::proofs::Views::read_behind_a_read))]
pub fn read_behind_a_read()
    ensures { ReadBehindARead }
{}

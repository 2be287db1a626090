//! Laws of what a post means. Each function does nothing; its contract is the law.

ghost use Rattle.fk_queue.specs.Laws.{AckFreesBlocks, AckTakesOne, NoBlocksWhereNoneWaits, NoneWaitsWhereEmpty, OthersStay, PushAddsBlocks, PushAddsOne, SameLaneIsEqual, SessionsStay};

/// A law: the test for the same lane is exact.
pub fn same_lane_is_equal()
    ensures { SameLaneIsEqual }
{}

/// A law: a push and an acknowledgement change no other lane, whatever they answer.
pub fn others_stay()
    ensures { OthersStay }
{}

/// A law: a push and an acknowledgement change no session, whatever they answer.
pub fn sessions_stay()
    ensures { SessionsStay }
{}

/// A law: a push makes one message more wait.
pub fn push_adds_one()
    ensures { PushAddsOne }
{}

/// A law: where a lane loses its head, one message less waits.
pub fn ack_takes_one()
    ensures { AckTakesOne }
{}

/// A law: no message waits exactly where each lane is empty.
pub fn none_waits_where_empty()
    ensures { NoneWaitsWhereEmpty }
{}

/// A law: a push takes the blocks of its message.
pub fn push_adds_blocks()
    ensures { PushAddsBlocks }
{}

/// A law: where a lane loses its head, the blocks of its message are free again.
pub fn ack_frees_blocks()
    ensures { AckFreesBlocks }
{}

/// A law: where no message waits, none takes a block.
pub fn no_blocks_where_none_waits()
    ensures { NoBlocksWhereNoneWaits }
{}

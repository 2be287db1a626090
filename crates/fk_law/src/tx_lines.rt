ghost use Rattle.fk_law.specs.TxLines.{GreatestTxIsTheMark, PublishedAsCommitted, PublishedPushHasItsLine, PublishedRequestHasItsLine, StampsAreSwept, UncommittedRequestHasNoLine};

/// A law: a committed push up to the mark has its transaction line, and is published as it was
/// committed.
pub fn published_as_committed()
    ensures line { PublishedPushHasItsLine }
    ensures same { PublishedAsCommitted }
{}

/// A law: the greatest number of a transaction line is the mark.
pub fn greatest_tx_is_the_mark()
    ensures { GreatestTxIsTheMark }
{}

/// A law: a request has its transaction line where its push was committed and is at most the mark,
/// and it has none where its outcome isn't a commit.
pub fn committed_requests_have_their_lines()
    ensures line { PublishedRequestHasItsLine }
    ensures none { UncommittedRequestHasNoLine }
{}

/// A law: the stamp of a user record is at most the number that was swept last.
pub fn stamps_are_swept()
    ensures { StampsAreSwept }
{}

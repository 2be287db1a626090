ghost use Rattle.fk_law.specs.Publishing.{EachRequestOnce, PublishedTreeIsShown, TxsAreTheCommits};

/// A law: the transaction lines are the commits up to the mark, in the order of their numbers, and
/// up to the mark their tree shows what the commits up to its number leave.
pub fn txs_are_the_commits()
    ensures lines { TxsAreTheCommits }
    ensures tree { PublishedTreeIsShown }
{}

/// A law: transaction numbers rise, each request stands in one line at most and each client's in
/// its order, and each line is its push, applied to the tree of the lines before it.
pub fn each_request_once()
    ensures { EachRequestOnce }
{}

ghost use Rattle.fk_law_tree.specs.Reading.{AskReads, CheckReads, FillReads};

/// A law: a check reads few paths of what a tree shows, and whether its session is closed.
pub fn check_reads()
    ensures { CheckReads }
{}

/// A law: what is filled is read at the paths that the check reads.
pub fn fill_reads()
    ensures { FillReads }
{}

/// A law: a query reads its path alone.
pub fn ask_reads()
    ensures { AskReads }
{}

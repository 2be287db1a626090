ghost use Rattle.fk_law.specs.Numbered.{NumberedFit, NumberedLeaveTheSame, NumberedTreeIsShown};

/// A law: in the order of their numbers the commits up to a number leave the same as in that in
/// which they were made, each fits those before it, and the tree after them is well formed and
/// shows what they leave.
pub fn numbered_commits_fit()
    ensures same { NumberedLeaveTheSame }
    ensures fit { NumberedFit }
    ensures shown { NumberedTreeIsShown }
{}

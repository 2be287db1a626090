//! Each request once, and as its push is applied.

ghost use Rattle.fk_refused.specs.Once.{LineOfNoPush, LineThatDoesNotPass, OtherData, OtherMoment, OtherPath, SecondLineOfANumber, SecondLineOfARequest};

/// A second transaction line has the number of the first.
#[tactic(auto, using(crate::proofs::Once::second_line_of_a_number))]
pub fn second_line_of_a_number()
    ensures { SecondLineOfANumber }
{}

/// A second transaction line is of the same request.
#[tactic(auto, using(crate::proofs::Once::second_line_of_a_request))]
pub fn second_line_of_a_request()
    ensures { SecondLineOfARequest }
{}

/// A transaction line shows other data than its push.
#[tactic(auto, using(crate::proofs::Once::other_data))]
pub fn other_data()
    ensures { OtherData }
{}

/// A transaction line shows another path than its push.
#[tactic(auto, using(crate::proofs::Once::other_path))]
pub fn other_path()
    ensures { OtherPath }
{}

/// A transaction line shows another moment than its push.
#[tactic(auto, using(crate::proofs::Once::other_moment))]
pub fn other_moment()
    ensures { OtherMoment }
{}

/// A transaction line is of no push.
#[tactic(auto, using(crate::proofs::Once::line_of_no_push))]
pub fn line_of_no_push()
    ensures { LineOfNoPush }
{}

/// A transaction line sets a node that the lines before it did not make.
#[tactic(auto, using(crate::proofs::Once::line_that_does_not_pass))]
pub fn line_that_does_not_pass()
    ensures { LineThatDoesNotPass }
{}

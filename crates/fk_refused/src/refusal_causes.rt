//! Refusals without their cause.

ghost use Rattle.fk_refused.specs.Causes.{BadArgumentsThatFit, BelowWhatWasSeen, CodeOfNoNumber, ErrorOfAnotherClient, ErrorOfAnotherCommand, ErrorWithoutAFault, ExpiredBelowWhatWasSeen, ExpiredWhileOpen, FaultBehindItsLoss, LossOfAnotherClient, LossOfAnotherCommand, LossWithoutAFault, OtherClientSent, OtherCode, OtherPlace, OtherWasSent, RefusedUnsent, UnfitIsDone, UnfitIsRefusedOtherwise};

/// A command that fits is refused for its arguments.
#[tactic(auto, using(crate::proofs::Causes::bad_arguments_that_fit))]
pub fn bad_arguments_that_fit()
    ensures { BadArgumentsThatFit }
{}

/// A command that does not fit is refused with another code.
#[tactic(auto, using(crate::proofs::Causes::unfit_is_refused_otherwise))]
pub fn unfit_is_refused_otherwise()
    ensures { UnfitIsRefusedOtherwise }
{}

/// A command that does not fit is done.
#[tactic(auto, using(crate::proofs::Causes::unfit_is_done))]
pub fn unfit_is_done()
    ensures { UnfitIsDone }
{}

/// A refusal has a code that the tree does not give.
#[tactic(auto, using(crate::proofs::Causes::other_code))]
pub fn other_code()
    ensures { OtherCode }
{}

/// A refusal of a single request shows a place.
#[tactic(auto, using(crate::proofs::Causes::other_place))]
pub fn other_place()
    ensures { OtherPlace }
{}

/// A command is refused that was not sent.
#[tactic(auto, using(crate::proofs::Causes::refused_unsent))]
pub fn refused_unsent()
    ensures { RefusedUnsent }
{}

/// A command is refused where another was sent.
#[tactic(auto, using(crate::proofs::Causes::other_was_sent))]
pub fn other_was_sent()
    ensures { OtherWasSent }
{}

/// A command is refused where another client sent its own.
#[tactic(auto, using(crate::proofs::Causes::other_client_sent))]
pub fn other_client_sent()
    ensures { OtherClientSent }
{}

/// A refusal speaks of a tree below the one that its client had seen.
#[tactic(auto, using(crate::proofs::Causes::below_what_was_seen))]
pub fn below_what_was_seen()
    ensures { BelowWhatWasSeen }
{}

/// A read is refused for a session that is not closed.
#[tactic(auto, using(crate::proofs::Causes::expired_while_open))]
pub fn expired_while_open()
    ensures { ExpiredWhileOpen }
{}

/// A read is refused for its closed session at a tree below the one that its client had seen.
#[tactic(auto, using(crate::proofs::Causes::expired_below_what_was_seen))]
pub fn expired_below_what_was_seen()
    ensures { ExpiredBelowWhatWasSeen }
{}

/// A command is answered with a lost connection where its sending did not fail.
#[tactic(auto, using(crate::proofs::Causes::loss_without_a_fault))]
pub fn loss_without_a_fault()
    ensures { LossWithoutAFault }
{}

/// A command is answered with a lost connection where the sending of another failed.
#[tactic(auto, using(crate::proofs::Causes::loss_of_another_command))]
pub fn loss_of_another_command()
    ensures { LossOfAnotherCommand }
{}

/// A command is answered with a lost connection where the sending of another client failed.
#[tactic(auto, using(crate::proofs::Causes::loss_of_another_client))]
pub fn loss_of_another_client()
    ensures { LossOfAnotherClient }
{}

/// A command is answered with a lost connection before its sending failed.
#[tactic(auto, using(crate::proofs::Causes::fault_behind_its_loss))]
pub fn fault_behind_its_loss()
    ensures { FaultBehindItsLoss }
{}

/// A read is answered with an error of a service where none failed.
#[tactic(auto, using(crate::proofs::Causes::error_without_a_fault))]
pub fn error_without_a_fault()
    ensures { ErrorWithoutAFault }
{}

/// A read is answered with an error of a service where the read of another command failed.
#[tactic(auto, using(crate::proofs::Causes::error_of_another_command))]
pub fn error_of_another_command()
    ensures { ErrorOfAnotherCommand }
{}

/// A read is answered with an error of a service where the read of another client failed.
#[tactic(auto, using(crate::proofs::Causes::error_of_another_client))]
pub fn error_of_another_client()
    ensures { ErrorOfAnotherClient }
{}

/// A command is answered with a code of the tree that speaks of no number.
#[tactic(auto, using(crate::proofs::Causes::code_of_no_number))]
pub fn code_of_no_number()
    ensures { CodeOfNoNumber }
{}

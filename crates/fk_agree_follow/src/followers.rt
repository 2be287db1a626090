ghost use Rattle.fk_agree_follow.specs.Followers.{FollowerEndsByFault, FollowerFails, FollowerFaultIsWritten, FollowerGoesOn, FollowerIsFit, FollowerIsWritten, FollowerMakesItsOperation, FollowerStarts, OthersLeaveFollowers};

/// A law: a follower that starts on the message that its lane's head is read as is the function of
/// the start line.
pub fn follower_starts()
    ensures { FollowerStarts }
{}

/// A law: a follower makes the operation that the rules name, and the fault that they name where
/// the services fail.
pub fn follower_makes_its_operation()
    ensures op { FollowerMakesItsOperation }
    ensures fault { FollowerFails }
{}

/// A law: after its operation a follower stands where the rules say, or has ended where they say
/// so, as after a fault; the lines of others leave it.
pub fn follower_goes_on()
    ensures own { FollowerGoesOn }
    ensures fault { FollowerEndsByFault }
    ensures others { OthersLeaveFollowers }
{}

/// A law: what a follower's operation needs holds.
pub fn follower_is_fit()
    ensures { FollowerIsFit }
{}

/// A law: a follower's operation, or its fault, leaves the services as the longer history says.
pub fn follower_is_written()
    ensures op { FollowerIsWritten }
    ensures fault { FollowerFaultIsWritten }
{}

ghost use Rattle.fk_agree_lead.specs.Leaders.{LeaderEndsAtItsFault, LeaderFails, LeaderFaultIsWritten, LeaderGoesOn, LeaderIsFit, LeaderIsWritten, LeaderMakesItsOperation, LeaderPrintsItsLines, LeaderStarts, OthersLeaveLeaders};

/// A law: a leader that starts on the push that its lane's head is read as is the function of the
/// start line.
pub fn leader_starts()
    ensures { LeaderStarts }
{}

/// A law: a leader makes the operation that the rules name, and the fault that they name where the
/// services fail.
pub fn leader_makes_its_operation()
    ensures op { LeaderMakesItsOperation }
    ensures fault { LeaderFails }
{}

/// A law: after its operation a leader stands where the rules say, or has ended where they say so,
/// as it has after a fault; the lines of others leave it.
pub fn leader_goes_on()
    ensures own { LeaderGoesOn }
    ensures fault { LeaderEndsAtItsFault }
    ensures others { OthersLeaveLeaders }
{}

/// A law: what a leader's operation needs holds.
pub fn leader_is_fit()
    ensures { LeaderIsFit }
{}

/// A law: a leader's operation, or its fault, leaves the services as the longer history says.
pub fn leader_is_written()
    ensures op { LeaderIsWritten }
    ensures fault { LeaderFaultIsWritten }
{}

/// A law: a leader's operation prints the lines that the rules name: a publication the
/// transaction's line, as the leader shows it, and each other operation none.
pub fn leader_prints_its_lines()
    ensures { LeaderPrintsItsLines }
{}

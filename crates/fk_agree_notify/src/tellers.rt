ghost use Rattle.fk_agree_notify.specs.Tellers.{OthersLeaveTellers, TellerFails, TellerFaultIsWritten, TellerGoesOn, TellerIsFit, TellerIsWritten, TellerMakesItsOperation, TellerStarts};

/// A law: a watch function that starts on the note that its lane's head is read as is the function
/// of the start line.
pub fn teller_starts()
    ensures { TellerStarts }
{}

/// A law: a watch function makes the operation that the rules name, and the fault that they name
/// where the services fail.
pub fn teller_makes_its_operation()
    ensures op { TellerMakesItsOperation }
    ensures fault { TellerFails }
{}

/// A law: after its operation a watch function stands where the rules say, or has ended where they
/// say so; the lines of others leave it.
pub fn teller_goes_on()
    ensures own { TellerGoesOn }
    ensures others { OthersLeaveTellers }
{}

/// A law: what a watch function's operation needs holds.
pub fn teller_is_fit()
    ensures { TellerIsFit }
{}

/// A law: a watch function's operation, or its fault, leaves the services as the longer history
/// says.
pub fn teller_is_written()
    ensures op { TellerIsWritten }
    ensures fault { TellerFaultIsWritten }
{}

ghost use Rattle.fk_agree_notify.specs.Beats.{BeatFails, BeatFaultIsWritten, BeatGoesOn, BeatIsFit, BeatIsWritten, BeatMakesItsOperation, BeatStarts, OthersLeaveBeats};

/// A law: a heartbeat that starts on a session is the function of the start line.
pub fn beat_starts()
    ensures { BeatStarts }
{}

/// A law: a heartbeat makes the operation that the rules name, and the fault that they name where
/// the services fail.
pub fn beat_makes_its_operation()
    ensures op { BeatMakesItsOperation }
    ensures fault { BeatFails }
{}

/// A law: after its operation a heartbeat stands where the rules say, or has ended where they say
/// so; the lines of others leave it.
pub fn beat_goes_on()
    ensures own { BeatGoesOn }
    ensures others { OthersLeaveBeats }
{}

/// A law: what a heartbeat's operation needs holds.
pub fn beat_is_fit()
    ensures { BeatIsFit }
{}

/// A law: a heartbeat's operation, or its fault, leaves the services as the longer history says.
pub fn beat_is_written()
    ensures op { BeatIsWritten }
    ensures fault { BeatFaultIsWritten }
{}

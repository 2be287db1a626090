ghost use Rattle.fk_law_held.specs.Announced.{HeldWatchesDiffer, WaitingReadRegisters};
ghost use Rattle.fk_law_held.specs.Held.{ClosedClientsHoldNothing, HeldWatchesAreAccountedFor, SetWatchesAreHeld};

/// A law: a watch that a client holds is set or has fired, and is its own.
pub fn held_watches_are_accounted_for()
    ensures { HeldWatchesAreAccountedFor }
{}

/// A law: a client that knows its session as closed holds no watch, and makes no read.
pub fn closed_clients_hold_nothing()
    ensures { ClosedClientsHoldNothing }
{}

/// A law: two watches that a client holds differ in their path or their kind.
pub fn held_watches_differ()
    ensures { HeldWatchesDiffer }
{}

/// A law: a client that doesn't know its session as closed holds each of its watches that is set.
pub fn set_watches_are_held()
    ensures { SetWatchesAreHeld }
{}

/// A law: a read that waits for its registration asks for a watch.
pub fn waiting_read_registers()
    ensures { WaitingReadRegisters }
{}

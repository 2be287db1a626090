//! Laws of what a region means. Each function does nothing; its contract is the law.

ghost use Rattle.fk_region.specs.Laws.{OthersStay, SameTicketIsEqual, StoredIsFound};

/// A law: bytes that were put in are found under their ticket.
pub fn stored_is_found()
    ensures { StoredIsFound }
{}

/// A law: under every other ticket stands what stood there, whatever is put in or given back.
pub fn others_stay()
    ensures { OthersStay }
{}

/// A law: the test for the same ticket is exact.
pub fn same_ticket_is_equal()
    ensures { SameTicketIsEqual }
{}

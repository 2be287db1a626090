ghost use Rattle.fk_law_held.specs.Notices.{HeldAreBehindNotices, InboxIsInOrder, NotificationsFitTheWatches};

/// A law: an inbox tells of the held watches in the order of the pushes that fired them, and each
/// held watch that has fired did so at the last notification of its client or beyond.
pub fn inbox_is_in_order()
    ensures inbox { InboxIsInOrder }
    ensures last { HeldAreBehindNotices }
{}

/// A law: each notification is of a watch that its client holds and that has fired, at that
/// transaction and with that change; a client's notifications are in the order of the transactions.
pub fn notifications_fit_the_watches()
    ensures { NotificationsFitTheWatches }
{}

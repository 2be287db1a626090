use fk_print::Event;

/// What a worker is given.
#[derive(Clone, Copy, Debug, PartialEq, Eq)]
pub enum Pick {
    /// It is to make this event, which it has picked from now on.
    Make(Event),
    /// There is nothing for it to do now; another worker may still make something of it.
    Wait,
    /// There is nothing left to do.
    Quiet,
}

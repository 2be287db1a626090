//! Where workers pass between choosing an event and making it.

use fk_print::Event;

/// A gate that each worker passes, outside of the lock, before it makes an event.
pub trait Gate {
    fn pass(&self, worker: u32, event: &Event);
}

/// A gate that holds no one.
#[derive(Clone, Copy, Debug)]
pub struct NoGate;

impl Gate for NoGate {
    fn pass(&self, _worker: u32, _event: &Event) {}
}

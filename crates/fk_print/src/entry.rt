use crate::event::Event;
use crate::lines::Lines;
use crate::op::Op;

/// One event of a run, the operation that it made and the public lines that came of it.
#[derive(Drop)]
pub struct Entry {
    pub event: Event,
    pub op: Op,
    pub lines: Lines,
}

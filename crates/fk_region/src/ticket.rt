/// What was put into a region is found by its ticket.
#[derive(Drop)]
pub struct Ticket {
    // the first block
    pub(crate) first: usize,
    // how many bytes are kept
    pub(crate) length: usize,
}

use fk_region::Ticket;

/// What a lane keeps of a message: the number that its push was given, and the ticket for its bytes.
#[derive(Drop)]
pub struct Slip {
    pub number: u64,
    pub ticket: Ticket,
}

//! Everything but the past.

use crate::functions::Functions;
use crate::services::Services;
use crate::times::Times;
use fk_client::Client;
use fk_store::Table;
use fk_wire::Reader;
use std::alloc::Global;

/// The times, the functions, the clients and the services.
#[derive(Drop)]
pub struct Parts<T: Table> {
    pub(crate) alloc: Global,
    pub(crate) times: Times,
    pub(crate) functions: Functions,
    /// In the order of their sessions.
    pub(crate) clients: Vec<Client>,
    pub(crate) services: Services<T>,
    /// The text of the message that a function started on last.
    pub(crate) reader: Reader,
}

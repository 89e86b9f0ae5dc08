//! What is done for clients.

/// What is done for a client.
#[derive(Drop)]
pub enum Deed {
    /// The client of this number is sent these bytes, behind those that it was sent before; and with `last` nothing more.
    Sent {
        client: u64,
        bytes: Vec<u8>,
        last: bool,
    },
    /// The client of this number is hung up, whatever it was sent.
    HungUp(u64),
}

/// A deed, and how many arrivals had come before it.
#[derive(Drop)]
pub struct Done {
    pub behind: usize,
    pub deed: Deed,
}

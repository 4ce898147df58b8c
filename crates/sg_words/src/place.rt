//! The places of the real objects.

/// The places that a command's options name, each empty where it isn't given: a player's store, a server's
/// rows, a server's address, the address to listen on, and a panel's folder.
#[derive(Debug, Drop)]
pub struct Places {
    pub store: String,
    pub db: String,
    pub server: String,
    pub listen: String,
    pub panel: String,
}

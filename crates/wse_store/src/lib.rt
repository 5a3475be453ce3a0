// Lines over a store: what the engine and the replies make of a line.
#![tactic(auto)]

mod server;
mod store;

pub use server::server_of;
pub use store::StoreServer;

// Lines in, answers out: a server of lines over a disk, and what serving a stream with it promises.
#![tactic(auto)]

mod answering;
mod server;
mod serving;

pub use server::{Server, Stopped};
pub use serving::{ServeEnd, ServeFault, Served, serve, serve_one};

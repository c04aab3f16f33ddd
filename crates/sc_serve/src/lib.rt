//! The command `serve`: the container over the connections of an edge.
#![tactic(auto)]

mod beginning;
mod closing;
mod naming;
mod rounds;
mod running;
mod server;
mod serving;
mod stop;
mod watch;

pub use naming::{Listening, listening_at};
pub use serving::{serve, serve_alone};

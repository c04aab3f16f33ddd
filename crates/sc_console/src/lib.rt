//! The console of a server: a person's lines, answered from a watch and an order desk.
#![tactic(auto)]

mod answer;
mod answering;
mod asked;
mod cuts;
mod listed;
mod operator;
mod typed;

pub use answer::Console;
pub use answering::console;
pub use asked::{Asked, asked_of};
pub use operator::Operator;
pub use typed::Typed;

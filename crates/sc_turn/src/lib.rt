//! A turn in the hands of a servlet or a listener: the calls that it makes, what each answers, and
//! what it is shown (JSR 289 section 6).
#![tactic(auto)]

mod calling;
mod calls;
mod making;
mod turn;

pub use turn::{Called, Turn};

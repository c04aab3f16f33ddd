//! What the cases on `serve` are made of: rows with what comes to an edge in memory, to a clock and
//! to orders, and the lines that are told of what came of it.
#![tactic(auto)]

mod answers;
mod letters;
mod outside;
mod rows;
mod running;
mod telling;

pub use letters::Letter;
pub use outside::{edge_of, orders_of, shelf_of, table_text, words_of};
pub use rows::{Come, EMPTY, Row};
pub use running::{clock_for, hold, told_over};
pub use telling::{tell_status, tell_took};

//! Scripts and the records of a run, as text: the lines that a script says, and what is written of
//! each message that was sent and of the run's end.
#![tactic(auto)]

mod cuts;
mod numbers;
mod places;
mod records;
mod refused;
mod rows;
mod scripts;

pub use numbers::decimal_upto;
pub use records::{write_end, write_sent};
pub use refused::ScriptRefused;
pub use scripts::read_lines;

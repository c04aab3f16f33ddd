//! The commands: `replay` runs a script on a switch and writes what it sent, `check` reads the
//! settings alone, `make` writes a script, and `trial` runs such a script with settings of its own.
#![tactic(auto)]

mod checking;
mod commanding;
mod making;
mod putting;
mod reading;
mod replaying;
mod running;
mod settings;
mod trying;
mod writing;

pub use checking::check;
pub use commanding::{Command, command_of, commands_are_named, settled_names};
pub use making::make;
pub use replaying::replay;
pub use sc_switch::{Ran, Status};
pub use settings::{Settings, read_settings};
pub use trying::trial;
pub use writing::{WriteRefused, put_end, put_sent};

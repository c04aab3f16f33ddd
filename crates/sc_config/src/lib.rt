//! The settings of the container, read from a TOML text.
#![tactic(auto)]

mod addresses;
mod config_refused;
mod faults;
mod making;
mod reading;
mod texts;
mod values;

pub use config_refused::ConfigRefused;
pub use reading::read;

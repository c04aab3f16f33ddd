//! All kinds of applications that every container comes with, each under its name.
#![tactic(auto)]

mod built_in;
mod kinds;

pub use built_in::BuiltIn;

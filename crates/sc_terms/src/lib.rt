//! The plain types of turns, steps, scripts and settings: what a servlet is shown, what it calls,
//! what the journal keeps, and what a configuration and a routing table say. No logic, but for
//! numbers that keep their range.
#![tactic(auto)]

mod calls;
mod charters;
mod copies;
mod events;
mod inside;
mod ranges;
mod resting;
mod settings;
mod steps;
mod views;

pub use calls::{Answer, Ask, Call, CallAnswer, CallRecord, End, ProxyOptions, Refusal, Target};
pub use charters::{Charter, ListenerCharter};
pub use events::Event;
pub use inside::Inside;
pub use ranges::{Apps, Expires, Port, Within};
pub use settings::{AppEntry, Config, Dar, HostEntry, MethodList, Modifier, Tuple};
pub use steps::{Bad, Line, Step};
pub use views::{Period, RequestView, Role, SessionView, State, TimerView, View};

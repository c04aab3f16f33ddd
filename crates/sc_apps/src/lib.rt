//! The applications that every container comes with: servlets and a listener, each of which keeps
//! its charter (JSR 289 sections 3 and 9).
#![tactic(auto)]

mod answering;
mod blocking;
mod bridging;
mod calling;
mod cancelling;
mod dialing;
mod drafting;
mod ending;
mod extending;
mod forking;
mod forwarding;
mod keeping;
mod passing;
mod proxying;
mod reading;
mod replies;
mod returning;
mod ringing;
mod telling;

pub use answering::Answers;
pub use blocking::Blocks;
pub use bridging::{B2bs, Reverses, is_refused};
pub use calling::respond;
pub use dialing::Dials;
pub use drafting::{create_in_dialog, draft_of, send};
pub use ending::ended;
pub use extending::ExtendsOnce;
pub use forking::Forks;
pub use forwarding::{Forwards, Records};
pub use keeping::{cancel_timer, remove_attribute, set_attribute, start_timer};
pub use reading::{attribute, memory_of, param_at, shown, small_number};
pub use replies::{reply, reply_180, reply_200, reply_500, reply_first_200, reply_ok, reply_only};
pub use ringing::{Rings, cancel_first_timer};
pub use telling::told;

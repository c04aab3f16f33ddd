//! What the items that have passed a transaction make of it (RFC 3261 section 17, RFC 6026): its
//! state, the moment at which it is due, and what it does with an item more. Lists of items alone,
//! and the parts of a message by which a transaction is known.
#![tactic(auto)]

mod clients;
mod methods;
mod moments;
mod outputs;
mod servers;
mod states;
mod vias;

pub use clients::{ClientStage, client_begun, client_next, client_stage};
pub use methods::{is_ack, is_cancel, is_invite, method_of, same_bytes};
pub use moments::due_since;
pub use outputs::{has_provisional, output};
pub use servers::{
    ServerStage, absorbs_in, has_final_answer, repeats_in, sends_in, server_begun, server_next,
    server_stage,
};
pub use states::{is_completed, is_over, is_proceeding};
pub use vias::{branch_of, top_via};

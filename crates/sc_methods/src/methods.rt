//! Which method a request has (RFC 3261 section 7.1, RFC 6665 section 3).

ghost use Rattle.std.specs.Prelude.{◌≡◌};
ghost use Rattle.sc_tokens.specs.Names.{same_bytes};
ghost use Rattle.sc_model.specs.DialogRequests.{cancel};
ghost use Rattle.sc_model.specs.Dialogs.{notify, subscribe};
ghost use Rattle.sc_model.specs.SessionStates.{ack, bye, invite};

use crate::words::is_word;

/// Whether a method is ACK.
#[tactic(auto, unfolding(sc_model::specs::SessionStates::ack))]
pub fn is_ack(method: &[u8]) -> bool
    ensures { result ≡ same_bytes method.now ack }
{
    is_word(method, b"ACK")
}

/// Whether a method is BYE.
#[tactic(auto, unfolding(sc_model::specs::SessionStates::bye))]
pub fn is_bye(method: &[u8]) -> bool
    ensures { result ≡ same_bytes method.now bye }
{
    is_word(method, b"BYE")
}

/// Whether a method is CANCEL.
#[tactic(auto, unfolding(sc_model::specs::DialogRequests::cancel))]
pub fn is_cancel(method: &[u8]) -> bool
    ensures { result ≡ same_bytes method.now cancel }
{
    is_word(method, b"CANCEL")
}

/// Whether a method is INVITE.
#[tactic(auto, unfolding(sc_model::specs::SessionStates::invite))]
pub fn is_invite(method: &[u8]) -> bool
    ensures { result ≡ same_bytes method.now invite }
{
    is_word(method, b"INVITE")
}

/// Whether a method is NOTIFY.
#[tactic(auto, unfolding(sc_model::specs::Dialogs::notify))]
pub fn is_notify(method: &[u8]) -> bool
    ensures { result ≡ same_bytes method.now notify }
{
    is_word(method, b"NOTIFY")
}

/// Whether a method is SUBSCRIBE.
#[tactic(auto, unfolding(sc_model::specs::Dialogs::subscribe))]
pub fn is_subscribe(method: &[u8]) -> bool
    ensures { result ≡ same_bytes method.now subscribe }
{
    is_word(method, b"SUBSCRIBE")
}

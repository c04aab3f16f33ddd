ghost use Rattle.std.specs.Prelude.{◌≡◌, ◌∷◌, [], ◌+◌, nat_lt, length, Some, None};
ghost use Rattle.sc_terms.specs.declared.calls.Refusal.TheVariants.{Limit};
ghost use Rattle.sc_hosts.specs.Looking.{request_in};
ghost use Rattle.sc_hosts.specs.RefusalParts.{first_of};
ghost use Rattle.sc_hosts.specs.Refusals.{attribute_bytes, respond_refusal, own_refusal, refusal};
ghost use Rattle.std.specs.Option.{option_map_or};

use crate::asking::{
    b2b_refusal, create_refusal, dialog_refusal, directive_refusal, respond_refusal, send_refusal,
};
use crate::linking::{
    ack_refusal, b2b_respond_refusal, cancel_refusal, cancel_timer_refusal, link_refusal,
    remove_refusal, timer_refusal, unlink_refusal,
};
use crate::named::named_refusal;
use crate::proxying::{proxy_cancel_refusal, proxy_refusal};
use crate::sums::passes_attributes;
use sc_looking::request_in;
use sc_state::Play;
use sc_terms::{Answer, Call, Refusal, View};
use sc_value::ReqId;

/// How many calls a turn lists.
pub const MOST_CALLS: u32 = 256;

/// The refusal of a call, None exactly where it is accepted. It takes no memory.
///
/// Every call is first refused `Limit(256)` where 256 calls are listed, `Invalidated` where the
/// application session was ended in this turn, `NotYours` where a number names nothing, and
/// `Invalidated` where a SipSession that is named, or that of a request or draft that is named, is
/// gone. Then come the refusals of its own, in the order of the definition.
#[tactic(auto, unfolding(sc_hosts::specs::Refusals::refusal, sc_hosts::specs::RefusalParts::first_of))]
pub fn refusal(play: &Play, call: &Call) -> Option<Refusal>
    ensures { result ≡ refusal play.now call.now }
{
    if MOST_CALLS <= play.listed {
        return Some(Refusal::Limit(256));
    }
    if play.ended {
        return Some(Refusal::Invalidated);
    }
    if let Some(refused) = named_refusal(play, call) {
        return Some(refused);
    }
    own_refusal(play, call)
}

fn answer_refusal(view: &View, req: ReqId, answer: &Answer) -> Option<Refusal>
    ensures { result
        ≡ option_map_or (λ request. respond_refusal request answer.now)
        (request_in view.entry.now req) (Some Refusal.NotYours) }
{
    match request_in(view, req) {
        Some(request) => respond_refusal(request, answer),
        None => Some(Refusal::NotYours),
    }
}

#[tactic(auto, unfolding(sc_hosts::specs::RefusalParts::first_of))]
fn attribute_refusal(view: &View, name: &[u8], value: &[u8]) -> Option<Refusal>
    ensures { result
        ≡ first_of
        ((
          nat_lt 4096
              (attribute_bytes name.now view.entry.now.attributes + length name.now + length value.now),
          Limit 4096,
        ) ∷ []) }
{
    if passes_attributes(view, name, value) {
        return Some(Refusal::Limit(4096));
    }
    None
}

#[tactic(auto, unfolding(sc_hosts::specs::Refusals::own_refusal))]
fn own_refusal(play: &Play, call: &Call) -> Option<Refusal>
    ensures { result ≡ own_refusal play.now call.now }
{
    match call {
        Call::Respond { req, answer } => answer_refusal(&play.view, *req, answer),
        Call::CreateRequest { ask } => create_refusal(play, ask),
        Call::CreateInDialog { sess, ask } => dialog_refusal(play, *sess, ask),
        Call::B2bCreate { req, .. } => b2b_refusal(play, *req),
        Call::SetDirective {
            draft,
            directive,
            origin,
        } => directive_refusal(play, *draft, *directive, *origin),
        Call::Send { draft } => send_refusal(play, *draft),
        Call::Ack { sess, .. } => ack_refusal(&play.view, *sess),
        Call::Cancel { req } => cancel_refusal(&play.view, *req),
        Call::ProxyTo {
            req,
            targets,
            options,
        } => proxy_refusal(play, *req, targets.len(), *options),
        Call::ProxyCancel { req } => proxy_cancel_refusal(&play.view, *req),
        Call::B2bRespond { sess, answer } => b2b_respond_refusal(&play.view, *sess, answer),
        Call::Link { a, b } => link_refusal(&play.view, *a, *b),
        Call::Unlink { a } => unlink_refusal(&play.view, *a),
        Call::StartTimer { period, .. } => timer_refusal(&play.view, *period),
        Call::CancelTimer { id } => cancel_timer_refusal(&play.view, *id),
        Call::SetAttribute { name, value } => {
            attribute_refusal(&play.view, name.as_bytes(), value.as_bytes())
        }
        Call::RemoveAttribute { name } => remove_refusal(&play.view, name.as_bytes()),
        Call::Discard { .. }
        | Call::SetExpires { .. }
        | Call::SetReadyFlag { .. }
        | Call::InvalidateSession { .. }
        | Call::InvalidateApplication => None,
    }
}

//! The remote target: which Contact of the peer gives it (RFC 3261 sections 12.1 and 12.2).

ghost use Rattle.std.specs.Prelude.{◌≡◌};
ghost use Rattle.std.specs.Option.{option_copied, option_or};
ghost use Rattle.sc_model.specs.Dialogs.{sets_target, contact_uri, last_uri, request_target, answers_first, may_set_target, response_target};

use sc_value::{CSeq, Contact, Request, Response, Uri};

/// The target that a request of the peer gives.
#[tactic(auto, unfolding(sc_model::specs::Dialogs::request_target))]
pub fn request_target(request: &Request) -> Option<&Uri>
    ensures { option_copied result ≡ request_target request.now }
{
    if sets_target(request.method.as_bytes()) {
        last_uri(request.head.contact.as_slice())
    } else {
        None
    }
}

/// The target that a response of the peer gives, in a dialog that began with this request of the
/// own side, or with one of the peer.
#[tactic(auto, unfolding(sc_model::specs::Dialogs::response_target))]
pub fn response_target<'a>(begun: &Option<CSeq>, response: &'a Response) -> Option<&'a Uri>
    ensures { option_copied result ≡ response_target begun.now response.now }
{
    if may_set_target(begun, response) {
        last_uri(response.head.contact.as_slice())
    } else {
        None
    }
}

#[tactic(auto, unfolding(sc_model::specs::Dialogs::may_set_target))]
fn may_set_target(begun: &Option<CSeq>, response: &Response) -> bool
    ensures { result ≡ may_set_target begun.now response.now }
{
    (199 < response.code
        && response.code < 300
        && sets_target(response.head.cseq.method.as_bytes()))
        || (100 < response.code && response.code < 200 && answers_first(begun, &response.head.cseq))
}

#[tactic(auto, unfolding(sc_model::specs::Dialogs::answers_first))]
fn answers_first(begun: &Option<CSeq>, cseq: &CSeq) -> bool
    ensures { result ≡ answers_first begun.now cseq.now }
{
    match begun {
        Some(first) => {
            cseq.number == first.number && cseq.method.as_bytes() == first.method.as_bytes()
        }
        None => false,
    }
}

/// Whether a request of this method sets the target of a dialog.
#[tactic(auto, unfolding(sc_model::specs::Dialogs::sets_target, sc_model::specs::Dialogs::update, sc_model::specs::Dialogs::subscribe, sc_model::specs::Dialogs::notify, sc_model::specs::Dialogs::refer, sc_model::specs::SessionStates::invite))]
pub fn sets_target(method: &[u8]) -> bool
    ensures { result ≡ sets_target method.now }
{
    method == b"INVITE".as_slice()
        || method == b"UPDATE".as_slice()
        || method == b"SUBSCRIBE".as_slice()
        || method == b"NOTIFY".as_slice()
        || method == b"REFER".as_slice()
}

/// The URI of the last Contact other than `*`.
#[tactic(auto, using(sc_model::proofs::DialogTargets::last_uri_none))]
fn last_uri(contacts: &[Contact]) -> Option<&Uri>
    ensures { option_copied result ≡ last_uri contacts.now }
{
    let mut last = None;
    for contact in contacts {
        last = later_uri(last, contact);
    }
    last
}

/// The URI of this Contact, or where it is `*` the earlier one.
fn later_uri<'a>(earlier: Option<&'a Uri>, contact: &'a Contact) -> Option<&'a Uri>
    ensures { option_copied result
        ≡ option_or (contact_uri contact.now) (option_copied earlier.entry) }
{
    match contact {
        Contact::At(address) => Some(&address.uri),
        Contact::Star => earlier,
    }
}

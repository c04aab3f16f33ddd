//! The SipSessions whose 2xx waits for an ACK.

ghost use Rattle.std.specs.Prelude.{◌≡◌, position, OnOk};
ghost use Rattle.sc_value.specs.Lists.{change_first};
ghost use Rattle.sc_hosts.specs.Looking.{is_request};
ghost use Rattle.sc_hosts.specs.PreparingResponses.{insert_session, with_success};
ghost use Rattle.sc_shown.specs.Shown.{follows};

use sc_looking::Numbered;
use sc_methods::{is_invite, is_success};
use sc_pages::{Change, Pages, Scope};
use sc_terms::RequestView;
use sc_value::{List, NoMemory, ReqId, Response, SessId};

#[tactic(auto, unfolding(crate::specs::Shown::follows))]
fn follows(sess: SessId, other: SessId) -> bool
    ensures { result ≡ follows sess other }
{
    sess.0 <= other.0
}

// The place of the first SipSession whose number isn't lower.
fn insert_place(list: &[SessId], sess: SessId) -> Option<usize>
    ensures { result ≡ position (follows sess) list.now }
{
    list.iter().position(|other| follows(sess, *other))
}

// A SipSession more, in order of number, each once.
#[tactic(auto, using(crate::proofs::Inserting::insert_present, crate::proofs::Inserting::insert_before, crate::proofs::Inserting::insert_last))]
fn insert_session(list: &mut List<SessId>, sess: SessId) -> Result<(), NoMemory>
    ensures { OnOk result (list.new ≡ insert_session sess list.old) }
{
    match insert_place(list.as_slice(), sess) {
        Some(at) => {
            if list.items[at].0 == sess.0 {
                return Ok(());
            }
            list.items.insert(at, sess)?;
        }
        None => list.push(sess)?,
    }
    Ok(())
}

#[tactic(auto, unfolding(sc_hosts::specs::PreparingResponses::with_success))]
fn with_success(
    request: &mut RequestView,
    sess: SessId,
    response: &Response,
) -> Result<(), NoMemory>
    ensures { OnOk result (request.new ≡ with_success sess response.now request.old) }
{
    if is_invite(request.method.as_bytes()) && is_success(response.code) {
        insert_session(&mut request.unacked, sess)?;
    }
    Ok(())
}

// A 2xx in a SipSession.
#[derive(Clone, Copy)]
struct Succeeded<'a> {
    sess: SessId,
    response: &'a Response,
}

impl Change<RequestView> for Succeeded<'_> {
    ghost changed = { λ p. with_success p.sess p.response.now };

    fn change(&self, request: &mut RequestView) -> Result<(), NoMemory> {
        with_success(request, self.sess, self.response)
    }
}

/// Notes that a 2xx to an INVITE came in a SipSession, which then waits for its ACK.
pub fn success_in(
    requests: &mut Pages<RequestView>,
    req: ReqId,
    sess: SessId,
    response: &Response,
) -> Result<(), NoMemory>
    ensures { OnOk result
        (requests.new
        ≡ change_first (is_request req) (with_success sess response.now) requests.old) }
{
    let succeeded = Succeeded { sess, response };
    requests.change_first(Scope::Number(req.0), &Numbered { req }, &succeeded)
}

//! What an application's end of a SipSession leaves of a view.

ghost use Rattle.std.specs.Prelude.{◌≡◌, ◌&&◌, OnOk};
ghost use Rattle.sc_hosts.specs.Looking.{change_request, same_session};
ghost use Rattle.sc_hosts.specs.ViewChanges.{is_owed, settled_request, settled_requests, tidy, view_without, with_answer};

use crate::answering::answer_in;
use crate::looking::removed;
use crate::tidying::tidy;
use sc_methods::is_ack;
use sc_pages::{Change, Probe, Scope};
use sc_terms::{RequestView, View};
use sc_value::{NoMemory, ReqId, SessId};

/// Whether a request was received and waits for its final response. An ACK has none.
#[tactic(auto, unfolding(sc_hosts::specs::ViewChanges::is_owed))]
pub fn is_owed(request: &RequestView) -> bool
    ensures { result ≡ is_owed request.now }
{
    request.received && request.answered.is_none() && !is_ack(request.method.as_bytes())
}

#[tactic(auto, unfolding(sc_hosts::specs::ViewChanges::settled_request))]
fn settled_request(sess: SessId, code: u16, request: &mut RequestView)
    ensures { request.new ≡ settled_request sess code request.old }
{
    if request.sess.0 == sess.0 && is_owed(request) {
        request.answered = Some(code);
    }
}

// What waits in a SipSession, which is answered so.
#[derive(Clone, Copy)]
struct Settled {
    sess: SessId,
    code: u16,
}

impl Probe<RequestView> for Settled {
    ghost passes = { λ p request. same_session request.sess p.sess && is_owed request };

    fn passes(&self, request: &RequestView) -> bool {
        request.sess.0 == self.sess.0 && is_owed(request)
    }
}

impl Change<RequestView> for Settled {
    ghost changed = { λ p. settled_request p.sess p.code };

    fn change(&self, request: &mut RequestView) -> Result<(), NoMemory> {
        settled_request(self.sess, self.code, request);
        Ok(())
    }
}

#[tactic(auto, unfolding(sc_hosts::specs::ViewChanges::settled_requests, sc_hosts::specs::ViewChanges::settled_request))]
fn settled_requests(view: &mut View, sess: SessId, code: u16) -> Result<(), NoMemory>
    ensures { OnOk result (view.new ≡ settled_requests sess code view.old) }
{
    let settled = Settled { sess, code };
    view.requests.change_all(Scope::All, &settled, &settled)
}

/// Lets a SipSession be invalidated: what waits in it is answered 500, and it is gone.
#[tactic(auto, unfolding(sc_hosts::specs::ViewChanges::view_without))]
pub fn invalidated(view: &mut View, sess: SessId) -> Result<(), NoMemory>
    ensures { OnOk result (view.new ≡ view_without sess view.old) }
{
    settled_requests(view, sess, 500)?;
    removed(view, sess);
    tidy(view)
}

/// Notes the final response to a request whose SipSession takes no response any more.
pub fn final_noted(view: &mut View, req: ReqId, code: u16) -> Result<(), NoMemory>
    ensures { OnOk result (view.new ≡ tidy (change_request req (with_answer code) view.old)) }
{
    answer_in(&mut view.requests, req, code)?;
    tidy(view)
}

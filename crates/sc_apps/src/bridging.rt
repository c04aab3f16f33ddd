//! The applications that join two legs.

ghost use Rattle.std.specs.Prelude.{◌≡◌, ◌+◌, ◌<◌, [], false, None, Some, OnOk};
ghost use Rattle.sc_value.specs.declared.ids.Directive.TheVariants.{Reverse};
ghost use Rattle.sc_terms.specs.declared.charters.Charter.{Charter};
ghost use Rattle.sc_hosts.specs.Scripting.{Make, is_refused, then_make};
ghost use Rattle.sc_hosts.specs.Charters.{leg_failed, leg_made, leg_script, leg_sent};
ghost use Rattle.sc_hosts.specs.RefusalParts.{MOST_CALLS};
ghost use Rattle.sc_turn.specs.Working.{play_of};
ghost use Rattle.sc_apps.specs.Scripted.{IsPlayed, before};

use crate::cancelling::cancel_leg;
use crate::drafting::{b2b_create, draft_of, send, set_directive};
use crate::ending::ended;
use crate::passing::pass_on;
use crate::proxying::is_no_hops;
use crate::reading::shown;
use crate::replies::{reply_483, reply_500};
use crate::returning::pass_back;
use sc_looking::partner;
use sc_servlets::SipServlet;
use sc_terms::{Call, CallAnswer, Charter, End, Event};
use sc_turn::Turn;
use sc_value::{Directive, NoMemory, ReqId};

/// A back-to-back user agent (JSR 289 section 12). The request that began the application session
/// it sends on, in a second SipSession that is linked to the first, to its own Request-URI. A
/// response to it is given on the other leg. A later request goes on in the other leg's dialog, an
/// ACK with its body alone, and its response comes back; an attribute tells which request is served
/// by which, as long as the response isn't final. When the first request is cancelled, so is the
/// second. Where Max-Forwards is 0 it answers 483 `Too Many Hops`, and 500 `Server Internal Error`
/// where the second leg can't be made or sent for another reason. It has no parameters.
#[derive(Clone, Copy, Debug)]
pub struct B2bs;

/// As [`B2bs`], but the router is asked to go on in the other region (JSR 289 section 15.2.2).
#[derive(Clone, Copy, Debug)]
pub struct Reverses;

impl SipServlet for B2bs {
    ghost stated = { λ _. Charter.B2b };

    fn charter(&self) -> Charter {
        Charter::B2b
    }

    #[tactic(auto, unfolding(sc_servlets::specs::Brought::Promises, sc_hosts::specs::Bringing::servlet_script), using(crate::proofs::Legs::keeps_b2b))]
    fn turn(&self, t: &mut Turn, e: &Event) -> End {
        ended(handle(t, e, false))
    }
}

impl SipServlet for Reverses {
    ghost stated = { λ _. Charter.Reverse };

    fn charter(&self) -> Charter {
        Charter::Reverse
    }

    #[tactic(auto, unfolding(sc_servlets::specs::Brought::Promises, sc_hosts::specs::Bringing::servlet_script), using(crate::proofs::Legs::keeps_reverse))]
    fn turn(&self, t: &mut Turn, e: &Event) -> End {
        ended(handle(t, e, true))
    }
}

#[tactic(auto, unfolding(sc_hosts::specs::Charters::leg_script), using(crate::proofs::Playing::played_done, crate::proofs::Playing::begun_room))]
fn handle(t: &mut Turn, e: &Event, reversed: bool) -> Result<(), NoMemory>
    requires calls { t.old.calls ≡ [] }
    requires memory { t.old.starved ≡ false }
    ensures same { t.new.shown ≡ t.old.shown }
    ensures played { OnOk result
        (IsPlayed (leg_script (before reversed) t.old.shown e.now) t.old t.new) }
{
    match e {
        Event::Initial { req, .. } => make_leg(t, *req, reversed),
        Event::Request { req, sess, request } => {
            let other = partner(shown(t), *sess);
            pass_on(t, *req, request.get(), other)
        }
        Event::Response {
            req,
            sess,
            response,
        } => pass_back(t, *req, *sess, response.get()),
        Event::Branch { .. } => Ok(()),
        Event::Cancelled { sess, .. } => cancel_leg(t, *sess),
        Event::Timer { .. } => Ok(()),
        Event::Expired => Ok(()),
        Event::Ready => Ok(()),
    }
}

/// Makes the second leg and sends it.
#[tactic(auto, using(crate::proofs::Playing::played_make))]
fn make_leg(t: &mut Turn, req: ReqId, reversed: bool) -> Result<(), NoMemory>
    requires { (play_of t.old).listed + 3 < MOST_CALLS }
    ensures same { t.new.shown ≡ t.old.shown }
    ensures played { OnOk result
        (IsPlayed (Make (Call.B2bCreate req None) (leg_made req (before reversed req))) t.old
        t.new) }
{
    let answer = b2b_create(t, req, None)?;
    leg_made(t, req, answer, reversed)
}

#[tactic(auto, unfolding(sc_hosts::specs::Charters::leg_made), using(crate::proofs::Playing::played_done))]
fn leg_made(t: &mut Turn, req: ReqId, answer: CallAnswer, reversed: bool) -> Result<(), NoMemory>
    requires { (play_of t.old).listed + 2 < MOST_CALLS }
    ensures same { t.new.shown ≡ t.old.shown }
    ensures played { OnOk result
        (IsPlayed (leg_made req (before reversed req) answer) t.old t.new) }
{
    match answer {
        CallAnswer::Fine => Ok(()),
        CallAnswer::Number(draft) => direct_and_send(t, req, draft, reversed),
        CallAnswer::Refused(refused) => leg_failed(t, req, CallAnswer::Refused(refused)),
    }
}

#[tactic(auto, unfolding(sc_hosts::specs::Charters::leg_failed))]
fn leg_failed(t: &mut Turn, req: ReqId, answer: CallAnswer) -> Result<(), NoMemory>
    requires { (play_of t.old).listed < MOST_CALLS }
    ensures same { t.new.shown ≡ t.old.shown }
    ensures played { OnOk result (IsPlayed (leg_failed req answer) t.old t.new) }
{
    if is_no_hops(answer) {
        return reply_483(t, req);
    }
    reply_500(t, req)
}

#[tactic(auto, unfolding(crate::specs::Scripted::before))]
fn direct_and_send(t: &mut Turn, req: ReqId, draft: u64, reversed: bool) -> Result<(), NoMemory>
    requires { (play_of t.old).listed + 2 < MOST_CALLS }
    ensures same { t.new.shown ≡ t.old.shown }
    ensures played { OnOk result
        (IsPlayed (before reversed req draft (Make (Call.Send draft) (leg_sent req))) t.old t.new) }
{
    if reversed {
        return reverse_and_send(t, req, draft);
    }
    send_leg(t, req, draft)
}

#[tactic(auto, using(crate::proofs::Playing::played_then))]
fn reverse_and_send(t: &mut Turn, req: ReqId, draft: u64) -> Result<(), NoMemory>
    requires { (play_of t.old).listed + 2 < MOST_CALLS }
    ensures same { t.new.shown ≡ t.old.shown }
    ensures played { OnOk result
        (IsPlayed
        (then_make (Call.SetDirective draft Reverse (Some req))
        (Make (Call.Send draft) (leg_sent req))) t.old t.new) }
{
    let number = draft_of(draft)?;
    set_directive(t, number, Directive::Reverse, Some(req))?;
    send_leg(t, req, draft)
}

#[tactic(auto, using(crate::proofs::Playing::played_make))]
fn send_leg(t: &mut Turn, req: ReqId, draft: u64) -> Result<(), NoMemory>
    requires { (play_of t.old).listed + 1 < MOST_CALLS }
    ensures same { t.new.shown ≡ t.old.shown }
    ensures played { OnOk result (IsPlayed (Make (Call.Send draft) (leg_sent req)) t.old t.new) }
{
    let number = draft_of(draft)?;
    let answer = send(t, number)?;
    leg_sent(t, req, answer)
}

/// Whether a call was refused.
#[tactic(auto, unfolding(sc_hosts::specs::Scripting::is_refused))]
pub fn is_refused(answer: CallAnswer) -> bool
    ensures { result ≡ is_refused answer }
{
    match answer {
        CallAnswer::Refused(_) => true,
        CallAnswer::Fine | CallAnswer::Number(_) => false,
    }
}

#[tactic(auto, unfolding(sc_hosts::specs::Charters::leg_sent), using(crate::proofs::Playing::played_done))]
fn leg_sent(t: &mut Turn, req: ReqId, answer: CallAnswer) -> Result<(), NoMemory>
    requires { (play_of t.old).listed < MOST_CALLS }
    ensures same { t.new.shown ≡ t.old.shown }
    ensures played { OnOk result (IsPlayed (leg_sent req answer) t.old t.new) }
{
    if is_refused(answer) {
        return reply_500(t, req);
    }
    Ok(())
}

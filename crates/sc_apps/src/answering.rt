//! The application that answers each request.

ghost use Rattle.std.specs.Prelude.{◌≡◌, ◌<◌, OnOk};
ghost use Rattle.sc_terms.specs.declared.charters.Charter.{Charter};
ghost use Rattle.sc_hosts.specs.Charters.{answer_script};
ghost use Rattle.sc_hosts.specs.RefusalParts.{MOST_CALLS};
ghost use Rattle.sc_turn.specs.Working.{play_of};
ghost use Rattle.sc_apps.specs.Scripted.{IsPlayed};

use crate::ending::ended;
use crate::replies::{reply_200, reply_ok};
use sc_servlets::SipServlet;
use sc_terms::{Charter, End, Event};
use sc_turn::Turn;
use sc_value::NoMemory;

/// Answers 200 `OK` to the request that began the application session, and to each later one but an
/// ACK (JSR 289 section 10.2.2). The answer has no fields, no Contact and no body; where it is
/// refused, nothing changes. At all other events it makes no call. It has no parameters.
#[derive(Clone, Copy, Debug)]
pub struct Answers;

impl SipServlet for Answers {
    ghost stated = { λ _. Charter.Answer };

    fn charter(&self) -> Charter {
        Charter::Answer
    }

    #[tactic(auto, unfolding(sc_servlets::specs::Brought::Promises, sc_hosts::specs::Bringing::servlet_script), using(crate::proofs::Playing::begun_room, crate::proofs::Playing::keeps))]
    fn turn(&self, t: &mut Turn, e: &Event) -> End {
        ended(answer(t, e))
    }
}

#[tactic(auto, unfolding(sc_hosts::specs::Charters::answer_script), using(crate::proofs::Playing::played_done))]
fn answer(t: &mut Turn, e: &Event) -> Result<(), NoMemory>
    requires { (play_of t.old).listed < MOST_CALLS }
    ensures same { t.new.shown ≡ t.old.shown }
    ensures played { OnOk result (IsPlayed (answer_script e.now) t.old t.new) }
{
    match e {
        Event::Initial { req, .. } => reply_200(t, *req),
        Event::Request { req, request, .. } => reply_ok(t, *req, request.get()),
        _ => Ok(()),
    }
}

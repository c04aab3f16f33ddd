//! What drafts are written with.

ghost use Rattle.std.specs.Prelude.{◌≡◌, ◌+◌, ◌==◌, position, Some, None, IfOk, OnOk};
ghost use Rattle.sc_value.specs.Lists.{change_first};
ghost use Rattle.sc_value.specs.declared.ids.Directive.{Directive};
ghost use Rattle.sc_state.specs.declared.working.Asked.{Asked};
ghost use Rattle.sc_hosts.specs.ViewChanges.{new_call_id, new_tag};
ghost use Rattle.sc_hosts.specs.Messages.{asked_request, leg_request};
ghost use Rattle.sc_hosts.specs.Preparing.{kept_of};
ghost use Rattle.sc_hosts.specs.Giving.{writes, with_leg, drafts_own, drafts_later, drafts_leg, is_written, directs, forgets};
ghost use Rattle.sc_sending.specs.Pieces.{with_directive};

use sc_effects::{kept_of, new_call_id, new_session, new_tag};
use sc_legs::new_leg;
use sc_messages::{asked_request, leg_request};
use sc_state::{Asked, Kept, Play, Working, Written};
use sc_terms::{Ask, Inside, View};
use sc_value::{CloneIn, Directive, NoMemory, ReqId, Request, Shared, Uri, sum_u32};
use std::alloc::Global;

#[tactic(auto, unfolding(sc_hosts::specs::Giving::writes))]
fn writes(working: &mut Working, draft: Written) -> Result<(), NoMemory>
    ensures { OnOk result (working.new ≡ writes draft working.old) }
{
    working.written.push(draft)?;
    Ok(())
}

fn with_leg(alloc: Global, working: &mut Working) -> Result<(), NoMemory>
    ensures { OnOk result (working.new ≡ with_leg working.old) }
{
    let sess = new_session(&working.play.view)?;
    let leg = new_leg(alloc, sess, None);
    working.known.legs.push(leg)?;
    Ok(())
}

fn own_request(alloc: Global, view: &View, ask: &Ask) -> Result<Shared<Request>, NoMemory>
    ensures { IfOk result
        (λ r. r ≡ asked_request (new_call_id view.entry.now) (new_tag view.entry.now) ask.now) }
{
    let call_id = new_call_id(alloc, view)?;
    let tag = new_tag(alloc, view)?;
    let request = asked_request(alloc, &call_id, &tag, ask)?;
    Shared::new(alloc, request)
}

/// Writes the draft of an initial request.
#[tactic(auto, unfolding(sc_hosts::specs::Giving::drafts_own))]
pub fn drafts_own(alloc: Global, ask: &Ask, working: &mut Working) -> Result<(), NoMemory>
    ensures { OnOk result (working.new ≡ drafts_own ask.now working.old) }
{
    let number = sum_u32(working.play.drafted, 1)?;
    let request = own_request(alloc, &working.play.view, ask)?;
    let draft = Written {
        number,
        directive: ask.directive,
        origin: ask.origin,
        asked: Asked::Initial(request),
    };
    writes(working, draft)?;
    with_leg(alloc, working)
}

/// Writes the draft of a request in a dialog.
#[tactic(auto, unfolding(sc_hosts::specs::Giving::drafts_later))]
pub fn drafts_later(alloc: Global, ask: &Inside, working: &mut Working) -> Result<(), NoMemory>
    ensures { OnOk result (working.new ≡ drafts_later ask.now working.old) }
{
    let number = sum_u32(working.play.drafted, 1)?;
    let ask = ask.clone_in(alloc)?;
    let draft = Written {
        number,
        directive: Directive::Continue,
        origin: None,
        asked: Asked::Later(ask),
    };
    writes(working, draft)
}

fn second_request(
    alloc: Global,
    view: &View,
    uri: &Option<Uri>,
    kept: &Kept,
) -> Result<Shared<Request>, NoMemory>
    ensures { IfOk result
        (λ r.
        r
        ≡ leg_request (new_call_id view.entry.now) (new_tag view.entry.now) uri.now
        kept.now.request) }
{
    let call_id = new_call_id(alloc, view)?;
    let tag = new_tag(alloc, view)?;
    let request = leg_request(alloc, &call_id, &tag, uri, kept.request.get())?;
    Shared::new(alloc, request)
}

fn leg_draft(
    alloc: Global,
    req: ReqId,
    uri: &Option<Uri>,
    kept: &Kept,
    play: &Play,
) -> Result<Written, NoMemory>
    ensures { IfOk result
        (λ draft.
        draft
        ≡ record {
          number = play.now.drafted + 1;
          directive = Directive.Continue;
          origin = Some req;
          asked = Asked.Initial
              (leg_request (new_call_id play.now.view) (new_tag play.now.view) uri.now kept.now.request);
        }) }
{
    let number = sum_u32(play.drafted, 1)?;
    let request = second_request(alloc, &play.view, uri, kept)?;
    Ok(Written {
        number,
        directive: Directive::Continue,
        origin: Some(req),
        asked: Asked::Initial(request),
    })
}

/// Writes the draft of a received request's second leg.
#[tactic(auto, unfolding(sc_hosts::specs::Giving::drafts_leg))]
pub fn drafts_leg(
    alloc: Global,
    req: ReqId,
    uri: &Option<Uri>,
    working: &mut Working,
) -> Result<(), NoMemory>
    ensures { OnOk result
        (working.new ≡ drafts_leg req uri.now (kept_of working.old.known req) working.old) }
{
    match kept_of(&working.known, req) {
        Some(kept) => {
            let draft = leg_draft(alloc, req, uri, kept, &working.play)?;
            writes(working, draft)?;
            with_leg(alloc, working)
        }
        None => Ok(()),
    }
}

fn written_place(written: &[Written], number: u32) -> Option<usize>
    ensures { result ≡ position (is_written number) written.now }
{
    written.iter().position(|draft| draft.number == number)
}

/// The place of the draft of this number.
pub fn written_at(working: &Working, number: u32) -> Option<usize>
    ensures { result ≡ position (is_written number) working.now.written }
{
    written_place(working.written.as_slice(), number)
}

#[tactic(auto, unfolding(crate::specs::Pieces::with_directive))]
fn directed(draft: &mut Written, directive: Directive, origin: Option<ReqId>)
    ensures { draft.new ≡ with_directive directive origin draft.old }
{
    draft.directive = directive;
    draft.origin = origin;
}

#[tactic(auto, using(sc_value::proofs::ListFacts::change_first_position, sc_value::proofs::ListFacts::change_first_none))]
fn direct_in(written: &mut [Written], number: u32, directive: Directive, origin: Option<ReqId>)
    ensures { written.new
        ≡ change_first (is_written number) (with_directive directive origin) written.old }
{
    match written_place(written, number) {
        Some(at) => directed(&mut written[at], directive, origin),
        None => {}
    }
}

/// Says how the router goes on for a draft.
#[tactic(auto, unfolding(sc_hosts::specs::Giving::directs, crate::specs::Pieces::with_directive))]
pub fn directs(number: u32, directive: Directive, origin: Option<ReqId>, working: &mut Working)
    ensures { working.new ≡ directs number directive origin working.old }
{
    direct_in(&mut working.written.items, number, directive, origin);
}

/// Forgets a draft.
#[tactic(auto, unfolding(sc_hosts::specs::Giving::forgets), using(sc_value::proofs::ListFacts::remove_first_position, sc_value::proofs::ListFacts::remove_first_none))]
pub fn forgets(number: u32, working: &mut Working)
    ensures { working.new ≡ forgets number working.old }
{
    match written_at(working, number) {
        Some(at) => drop(working.written.items.remove(at)),
        None => {}
    }
}

//! How an application session begins.

ghost use Rattle.std.specs.Prelude.{◌≡◌, [], ◌∷◌, Some, IfOk};
ghost use Rattle.std.specs.Option.{option_copied};
ghost use Rattle.sc_model.specs.Dialogs.{Beginning, dialog_of, tag_of};
ghost use Rattle.sc_model.specs.Names.{tag_text};
ghost use Rattle.sc_model.specs.Settings.{expiry_in, params_in};
ghost use Rattle.sc_hosts.specs.Legs.{first_got, first_known, first_leg, first_session, first_view, fresh};

use sc_dialog::Dialog;
use sc_effects::moment_after;
use sc_pages::Pages;
use sc_state::{Got, Known, Leg, Note, Session};
use sc_terms::{AppEntry, Config, Role, SessionView, State, View};
use sc_value::{Address, AppId, CloneIn, List, NoMemory, ReqId, Request, SessId, Text, tag};
use std::alloc::Global;

/// The application session that a request begins at this moment. Its first SipSession draws its tag
/// at once.
#[tactic(auto, unfolding(sc_hosts::specs::Legs::fresh))]
pub fn fresh(
    alloc: Global,
    config: &Config,
    app: AppId,
    epoch: u32,
    began: u64,
    noted: &Note,
    request: &Request,
) -> Result<Session, NoMemory>
    ensures { IfOk result (λ s. s ≡ fresh config.now app epoch began noted.now request.now) }
{
    let own_tag = first_tag(alloc, config.salt.as_text(), epoch, app)?;
    let known = first_known(alloc, &own_tag, noted, request)?;
    let view = first_view(alloc, config, app, epoch, began, &own_tag, request)?;
    Ok(Session { view, known })
}

fn first_tag(alloc: Global, salt: &Text, epoch: u32, app: AppId) -> Result<Text, NoMemory>
    ensures { IfOk result (λ t. t ≡ tag_text salt.now epoch app 1) }
{
    let mut text = Text::new(alloc);
    sc_names::tag(alloc, salt, epoch, app, 1, &mut text)?;
    Ok(text)
}

#[tactic(auto, unfolding(sc_hosts::specs::Legs::first_view))]
fn first_view(
    alloc: Global,
    config: &Config,
    app: AppId,
    epoch: u32,
    began: u64,
    own_tag: &Text,
    request: &Request,
) -> Result<View, NoMemory>
    requires { own_tag.now ≡ tag_text config.now.salt epoch app 1 }
    ensures { IfOk result (λ v. v ≡ first_view config.now app epoch began request.now) }
{
    let entry = config.app.as_slice().get(app.host as usize);
    let expires = expiry_of(entry, began)?;
    let own_tag = own_tag.clone_in(alloc)?;
    let sessions = first_sessions(alloc, own_tag, request)?;
    let salt = config.salt.clone_in(alloc)?;
    let params = params_of(alloc, entry)?;
    Ok(View {
        app,
        epoch,
        salt,
        ip: config.listen.0,
        params,
        now: began,
        expires,
        ready_flag: true,
        counter: 1,
        next_request: 1,
        next_timer: 1,
        attributes: List::new(alloc),
        sessions,
        requests: Pages::new(alloc),
        timers: List::new(alloc),
    })
}

#[tactic(auto, unfolding(sc_model::specs::Settings::params_in))]
fn params_of(alloc: Global, entry: Option<&AppEntry>) -> Result<List<Text>, NoMemory>
    ensures { IfOk result (λ p. p ≡ params_in (option_copied entry.entry)) }
{
    match entry {
        Some(entry) => entry.params.clone_in(alloc),
        None => Ok(List::new(alloc)),
    }
}

#[tactic(auto, unfolding(sc_model::specs::Settings::expiry_in))]
fn expiry_of(entry: Option<&AppEntry>, began: u64) -> Result<Option<u64>, NoMemory>
    ensures { IfOk result (λ e. e ≡ expiry_in (option_copied entry.entry) began) }
{
    match entry {
        Some(entry) => moment_after(began, entry.expires.get()),
        None => Ok(None),
    }
}

fn first_sessions(
    alloc: Global,
    own_tag: Text,
    request: &Request,
) -> Result<List<SessionView>, NoMemory>
    ensures { IfOk result (λ l. l ≡ first_session own_tag request.now ∷ []) }
{
    let session = first_session(alloc, own_tag, request)?;
    let mut sessions = List::new(alloc);
    sessions.push(session)?;
    Ok(sessions)
}

#[tactic(auto, unfolding(sc_hosts::specs::Legs::first_session))]
fn first_session(alloc: Global, own_tag: Text, request: &Request) -> Result<SessionView, NoMemory>
    ensures { IfOk result (λ s. s ≡ first_session own_tag request.now) }
{
    let peer_tag = tag_of(alloc, &request.head.from)?;
    let call_id = request.head.call_id.clone_in(alloc)?;
    Ok(SessionView {
        id: SessId(1),
        state: State::Initial,
        role: Role::Uas,
        call_id,
        own_tag,
        peer_tag,
        linked: None,
        ready_flag: true,
        gone: false,
    })
}

fn tag_of(alloc: Global, address: &Address) -> Result<Option<Text>, NoMemory>
    ensures { IfOk result (λ t. t ≡ tag_of address.now) }
{
    match tag(address) {
        Some(tag) => Ok(Some(tag.clone_in(alloc)?)),
        None => Ok(None),
    }
}

#[tactic(auto, unfolding(sc_hosts::specs::Legs::first_known))]
fn first_known(
    alloc: Global,
    own_tag: &Text,
    noted: &Note,
    request: &Request,
) -> Result<Known, NoMemory>
    ensures { IfOk result (λ k. k ≡ first_known own_tag.now noted.now request.now) }
{
    let leg = first_leg(alloc, own_tag, request)?;
    let mut legs = List::new(alloc);
    legs.push(leg)?;
    Ok(Known {
        region: noted.region,
        order: noted.order,
        legs,
        kept: Pages::new(alloc),
        invited: Pages::new(alloc),
        proxies: Pages::new(alloc),
    })
}

#[tactic(auto, unfolding(sc_hosts::specs::Legs::first_leg))]
fn first_leg(alloc: Global, own_tag: &Text, request: &Request) -> Result<Leg, NoMemory>
    ensures { IfOk result (λ l. l ≡ first_leg own_tag.now request.now) }
{
    let caller = tag_of(alloc, &request.head.from)?;
    let got = first_got(alloc, request)?;
    let dialog = called(alloc, own_tag, request)?;
    Ok(Leg {
        id: SessId(1),
        first: Some(ReqId(1)),
        caller,
        dialog,
        got,
        invalidated: false,
        overtaken: false,
    })
}

fn called(alloc: Global, own_tag: &Text, request: &Request) -> Result<Option<Dialog>, NoMemory>
    ensures { IfOk result
        (λ d. d ≡ Some (dialog_of (Beginning.Called own_tag.now request.now) [])) }
{
    let dialog = Dialog::from_uas(alloc, request, own_tag)?;
    Ok(Some(dialog))
}

/// The number of the request that begins a SipSession, by its sender's tag.
#[tactic(auto, unfolding(sc_hosts::specs::Legs::first_got))]
pub fn first_got(alloc: Global, request: &Request) -> Result<List<Got>, NoMemory>
    ensures { IfOk result (λ l. l ≡ first_got request.now) }
{
    let tag = tag_of(alloc, &request.head.from)?;
    let mut got = List::new(alloc);
    got.push(Got {
        tag,
        number: request.head.cseq.number,
    })?;
    Ok(got)
}

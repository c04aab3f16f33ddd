//! Requests that begin a session.

ghost use Rattle.std.specs.Prelude.{◌≡◌, ◌∷◌, [], IfOk};
ghost use Rattle.sc_state.specs.declared.queue.Queued.{Queued};
ghost use Rattle.sc_model.specs.Names.{tag_text};
ghost use Rattle.sc_hosts.specs.Histories.{as_session};
ghost use Rattle.sc_hosts.specs.Legs.{fresh};
ghost use Rattle.sc_hosts.specs.Taking.{begun_live, take_initial, take_new};
ghost use Rattle.sc_inboxes.specs.TakenParts.{taken_by};

use sc_inboxes::{Told, quiet, refuse_full, refuse_unknown, with_server, with_trying};
use sc_legs::fresh;
use sc_names::tag;
use sc_state::{Coming, Host, Live, Note, Queue, Queued, Session, Waiting};
use sc_terms::Config;
use sc_value::{AppId, CloneIn, List, NoMemory, Request, Shared, Text, sum};
use std::alloc::Global;

fn first_event(alloc: Global, noted: &Note, request: &Shared<Request>) -> Result<Queued, NoMemory>
    ensures { IfOk result
        (λ e.
        e ≡ Queued.Initial noted.now.region noted.now.subscriber noted.now.popped request.now) }
{
    let subscriber = noted.subscriber.clone_in(alloc)?;
    let popped = noted.popped.clone_in(alloc)?;
    let request = request.clone_in(alloc)?;
    Ok(Queued::Initial {
        region: noted.region,
        subscriber,
        popped,
        request,
    })
}

fn first_inbox(
    alloc: Global,
    noted: &Note,
    request: &Shared<Request>,
    number: u64,
) -> Result<Queue<Waiting>, NoMemory>
    ensures { IfOk result
        (λ l.
        l
        ≡ record {
          number = number;
          event = Queued.Initial noted.now.region noted.now.subscriber noted.now.popped
              request.now;
        } ∷ []) }
{
    match first_event(alloc, noted, request) {
        Ok(event) => inbox_of(alloc, Waiting { number, event }),
        Err(NoMemory) => Err(NoMemory),
    }
}

fn inbox_of(alloc: Global, waiting: Waiting) -> Result<Queue<Waiting>, NoMemory>
    ensures { IfOk result (λ inbox. inbox ≡ waiting ∷ []) }
{
    let mut inbox = Queue::new(alloc);
    inbox.push(waiting)?;
    Ok(inbox)
}

// The session as it begins, with its first owner.
fn begun_session(
    alloc: Global,
    config: &Config,
    app: AppId,
    epoch: u32,
    began: u64,
    noted: &Note,
    request: &Request,
) -> Result<Shared<Session>, NoMemory>
    ensures { IfOk result (λ s. s ≡ fresh config.now app epoch began noted.now request.now) }
{
    match fresh(alloc, config, app, epoch, began, noted, request) {
        Ok(session) => Shared::new(alloc, session),
        Err(NoMemory) => Err(NoMemory),
    }
}

#[tactic(auto, unfolding(sc_hosts::specs::Taking::begun_live, sc_hosts::specs::Histories::as_session))]
fn begun_live(
    alloc: Global,
    config: &Config,
    epoch: u32,
    app: AppId,
    now: u64,
    noted: &Note,
    request: &Shared<Request>,
    number: u64,
) -> Result<Shared<Live<Session>>, NoMemory>
    ensures { IfOk result
        (λ l. l ≡ begun_live as_session config.now epoch app now noted.now request.now number) }
{
    let session = begun_session(alloc, config, app, epoch, now, noted, request.get())?;
    match first_inbox(alloc, noted, request, number) {
        Ok(inbox) => Shared::new(
            alloc,
            Live {
                serial: app.serial,
                session,
                inbox,
                since: now,
                fired: List::new(alloc),
            },
        ),
        Err(NoMemory) => Err(NoMemory),
    }
}

// The tag that an application session draws as it begins.
pub(crate) fn own_tag(
    alloc: Global,
    config: &Config,
    epoch: u32,
    app: AppId,
) -> Result<Text, NoMemory>
    ensures { IfOk result (λ t. t ≡ tag_text config.now.salt epoch app 1) }
{
    let mut text = Text::new(alloc);
    tag(alloc, config.salt.as_text(), epoch, app, 1, &mut text)?;
    Ok(text)
}

#[tactic(auto, unfolding(sc_hosts::specs::Taking::take_new, sc_hosts::specs::Inboxes::without_answer))]
fn begun(
    alloc: Global,
    config: &Config,
    coming: Coming,
    noted: &Note,
    request: &Shared<Request>,
    host: &mut Host<Session>,
) -> Result<Told, NoMemory>
    ensures { IfOk result
        (λ t.
        take_new as_session config.now coming noted.now request.now host.old ≡ taken_by host.new t) }
{
    let serial = sum(host.last(), 1)?;
    let app = AppId {
        host: coming.host,
        serial,
    };
    let event = sum(coming.count, 1)?;
    let live = begun_live(
        alloc,
        config,
        coming.epoch,
        app,
        coming.now,
        noted,
        request,
        event,
    )?;
    let tag = own_tag(alloc, config, coming.epoch, app)?;
    host.push_live(live, serial)?;
    with_server(alloc, app, event, coming.from, tag, request, host)?;
    with_trying(
        alloc,
        coming.from,
        coming.now,
        request.get(),
        quiet(event),
        host,
    )
}

/// A request that may begin a session does so where it has its note, and fewer live than may.
#[tactic(auto, unfolding(sc_hosts::specs::Taking::take_initial))]
pub fn take_initial(
    alloc: Global,
    config: &Config,
    coming: Coming,
    noted: &Option<Note>,
    request: &Shared<Request>,
    host: &mut Host<Session>,
) -> Result<Told, NoMemory>
    ensures { IfOk result
        (λ t.
        take_initial as_session config.now coming noted.now request.now host.old
        ≡ taken_by host.new t) }
{
    let noted = match noted {
        Some(noted) => noted,
        None => return refuse_unknown(alloc, config, coming.from, request.get(), coming.count),
    };
    if 4096 <= host.live_count() {
        return refuse_full(alloc, config, coming.from, request.get(), coming.count);
    }
    begun(alloc, config, coming, noted, request, host)
}

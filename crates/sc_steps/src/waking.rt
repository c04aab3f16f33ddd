//! How a turn closes: the session ends, or it waits for what is next.

ghost use Rattle.std.specs.Prelude.{◌≡◌, false, OnOk};
ghost use Rattle.std.specs.Option.{option_map_or};
ghost use Rattle.sc_hosts.specs.Steps.{live_at};
ghost use Rattle.sc_steps.specs.TurnParts.{wakes, ready_by, closed_by};

use crate::endings::ended;
use crate::lives::live_at;
use sc_finish::is_ready;
use sc_parts::Setup;
use sc_state::{Live, Net, Queued, Session};
use sc_value::{AppId, NoMemory};
use sc_wire::queue_for;
use std::alloc::Global;

#[tactic(auto, unfolding(crate::specs::TurnParts::wakes))]
fn wakes(session: &Session, live: &Live<Session>) -> bool
    ensures { result ≡ wakes session.now live.now }
{
    live.inbox.is_empty() && is_ready(session) && session.view.ready_flag
}

fn wakes_at(app: AppId, session: &Session, net: &Net<Session>) -> bool
    ensures { result ≡ option_map_or (wakes session.now) (live_at app net.entry.now) false }
{
    match live_at(app, net) {
        Some(live) => wakes(session, live),
        None => false,
    }
}

// `Ready` is queued where the session is ready, its flag is set and no event waits (JSR 289 section
// 6.1.2.2).
#[tactic(auto, unfolding(crate::specs::TurnParts::ready_by))]
fn with_ready(
    alloc: Global,
    app: AppId,
    session: &Session,
    net: &mut Net<Session>,
) -> Result<(), NoMemory>
    ensures { OnOk result (net.new ≡ ready_by app session.now net.old) }
{
    if wakes_at(app, session, net) {
        return queue_for(alloc, app, Queued::Ready, net);
    }
    Ok(())
}

/// The session, of which its turn has made this, ends or waits for what is next.
#[tactic(auto, unfolding(crate::specs::TurnParts::closed_by))]
pub fn closed_turn(
    alloc: Global,
    setup: &Setup,
    app: AppId,
    session: &Session,
    ends: bool,
    net: &mut Net<Session>,
) -> Result<(), NoMemory>
    ensures { OnOk result (net.new ≡ closed_by setup.now app session.now ends net.old) }
{
    if ends {
        return ended(alloc, setup, app, session, net);
    }
    with_ready(alloc, app, session, net)
}

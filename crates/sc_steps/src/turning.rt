//! A session takes a turn.

ghost use Rattle.std.specs.Prelude.{◌≡◌, IfOk, IfSome, OnOk};
ghost use Rattle.std.specs.Option.{option_copied};
ghost use Rattle.sc_hosts.specs.Histories.{as_session};
ghost use Rattle.sc_hosts.specs.Nets.{host_at};
ghost use Rattle.sc_hosts.specs.Preparing.{prepared_session};
ghost use Rattle.sc_hosts.specs.Steps.{live_at, outcome_by, ringing_at, turn_of, turns};
ghost use Rattle.sc_steps.specs.TurnParts.{Begins, FirstBegins, turned_by, first_by, turns_by};

use crate::endings::without_live;
use crate::leaving::net_after;
use crate::lives::{live_copy, ringing_at};
use crate::silent::ends_silently;
use crate::waking::closed_turn;
use sc_finish::{Made, outcome, outcome_from};
use sc_net::obeyed;
use sc_parts::Setup;
use sc_state::{Live, Net, Outcome, Prepared, Session, Waiting};
use sc_terms::Config;
use sc_value::{AppId, Boxed, CloneIn, NoMemory, Shared};
use std::alloc::Global;

// The event leaves the inbox, what the turn sends is sent, and then the session ends or waits for
// what is next.
#[tactic(auto, unfolding(crate::specs::TurnParts::turned_by))]
fn put_turn(
    alloc: Global,
    setup: &Setup,
    app: AppId,
    done: Outcome,
    net: &mut Net<Session>,
) -> Result<(), NoMemory>
    ensures { OnOk result (net.new ≡ turned_by setup.now app done net.old) }
{
    let Outcome {
        session,
        orders,
        ends,
    } = done;
    let session = Shared::new(alloc, session)?;
    net_after(alloc, app, &session, net)?;
    obeyed(alloc, setup, app, orders.as_slice(), net)?;
    closed_turn(alloc, setup, app, session.get(), ends, net)
}

fn let_outcome_go(done: Outcome) {
    drop(done);
}

/// What a turn makes of the net: a session that ends where nothing is sent goes as it is.
#[tactic(auto, using(crate::proofs::SilentEnds::silent_end))]
fn turned(
    alloc: Global,
    setup: &Setup,
    app: AppId,
    done: Outcome,
    net: &mut Net<Session>,
) -> Result<(), NoMemory>
    ensures { OnOk result (net.new ≡ turned_by setup.now app done net.old) }
{
    match ends_silently(alloc, setup, app, &done, net) {
        Ok(true) => {
            let_outcome_go(done);
            without_live(alloc, app, net)
        }
        Ok(false) => put_turn(alloc, setup, app, done, net),
        Err(NoMemory) => {
            let_outcome_go(done);
            Err(NoMemory)
        }
    }
}

#[tactic(auto, unfolding(sc_hosts::specs::Steps::outcome_by, sc_hosts::specs::Steps::turn_of, sc_hosts::specs::Histories::as_session))]
fn outcome_by(
    alloc: Global,
    config: &Config,
    session: &Session,
    waiting: &Waiting,
    made: &Made<'_>,
    net: &Net<Session>,
) -> Result<Outcome, NoMemory>
    ensures { IfOk result
        (λ done.
        done
        ≡ outcome_by as_session config.now session.now
        (turn_of net.now made.now.app waiting.now made.now.moment made.now.calls.now
        made.now.end)) }
{
    let ringing = ringing_at(alloc, made.app, net)?;
    let session = session.clone_in(alloc)?;
    outcome(alloc, config, ringing.as_slice(), session, waiting, made)
}

// The same, where it may be known already what the turn begins with.
#[tactic(auto, unfolding(sc_hosts::specs::Steps::outcome_by, sc_hosts::specs::Steps::turn_of, sc_hosts::specs::Histories::as_session, sc_hosts::specs::Finishing::outcome, sc_finish::specs::Ends::outcome_from))]
fn outcome_begun(
    alloc: Global,
    config: &Config,
    begun: Option<Boxed<Prepared>>,
    session: &Session,
    waiting: &Waiting,
    made: &Made<'_>,
    net: &Net<Session>,
) -> Result<Outcome, NoMemory>
    requires { IfSome begun
        (λ shown.
        prepared_session config.now (ringing_at made.now.app (host_at made.now.app.host net.now))
        session.now waiting.now made.now.moment
        ≡ shown) }
    ensures { IfOk result
        (λ done.
        done
        ≡ outcome_by as_session config.now session.now
        (turn_of net.now made.now.app waiting.now made.now.moment made.now.calls.now
        made.now.end)) }
{
    match begun {
        Some(shown) => outcome_from(alloc, config, shown.into_inner(), waiting, made),
        None => outcome_by(alloc, config, session, waiting, made, net),
    }
}

fn let_go(begun: Option<Boxed<Prepared>>) {
    drop(begun);
}

#[tactic(auto, unfolding(crate::specs::TurnParts::first_by, crate::specs::TurnParts::FirstBegins))]
fn first_by(
    alloc: Global,
    setup: &Setup,
    begun: Option<Boxed<Prepared>>,
    session: &Session,
    waiting: Option<&Waiting>,
    made: &Made<'_>,
    net: &mut Net<Session>,
) -> Result<(), NoMemory>
    requires { IfSome begun
        (λ shown.
        FirstBegins setup.now.config
        (ringing_at made.now.app (host_at made.now.app.host net.old)) session.now
        (option_copied waiting) made.now.moment shown) }
    ensures { OnOk result
        (net.new
        ≡ first_by setup.now made.now.app session.now (option_copied waiting.entry)
        made.now.moment made.now.calls.now made.now.end net.old) }
{
    match waiting {
        Some(waiting) => {
            let done = outcome_begun(alloc, &setup.config, begun, session, waiting, made, net)?;
            turned(alloc, setup, made.app, done, net)
        }
        None => {
            let_go(begun);
            Ok(())
        }
    }
}

#[tactic(auto, unfolding(crate::specs::TurnParts::turns_by, crate::specs::TurnParts::Begins))]
fn turns_by(
    alloc: Global,
    setup: &Setup,
    begun: Option<Boxed<Prepared>>,
    live: &Option<Shared<Live<Session>>>,
    made: &Made<'_>,
    net: &mut Net<Session>,
) -> Result<(), NoMemory>
    requires { IfSome begun
        (λ shown.
        Begins setup.now.config (ringing_at made.now.app (host_at made.now.app.host net.old))
        live.now made.now.moment shown) }
    ensures { OnOk result
        (net.new
        ≡ turns_by setup.now made.now.app live.now made.now.moment made.now.calls.now made.now.end
        net.old) }
{
    match live {
        Some(live) => {
            let live = live.get();
            first_by(
                alloc,
                setup,
                begun,
                live.session.get(),
                live.inbox.first(),
                made,
                net,
            )
        }
        None => {
            let_go(begun);
            Ok(())
        }
    }
}

/// A session takes a turn with its first event, where it lives and one waits. What the turn begins
/// with may be known already.
#[tactic(auto, using(crate::proofs::LiveTurns::turns_taken))]
pub fn turns(
    alloc: Global,
    setup: &Setup,
    begun: Option<Boxed<Prepared>>,
    made: &Made<'_>,
    net: &mut Net<Session>,
) -> Result<(), NoMemory>
    requires { IfSome begun
        (λ shown.
        Begins setup.now.config (ringing_at made.now.app (host_at made.now.app.host net.old))
        (live_at made.now.app net.old) made.now.moment shown) }
    ensures { OnOk result
        (net.new
        ≡ turns as_session setup.now made.now.app (live_at made.now.app net.old) made.now.moment
        made.now.calls.now made.now.end net.old) }
{
    match live_copy(alloc, made.app, net) {
        Ok(live) => turns_by(alloc, setup, begun, &live, made, net),
        Err(NoMemory) => {
            let_go(begun);
            Err(NoMemory)
        }
    }
}

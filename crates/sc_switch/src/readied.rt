//! A net, and what the turn that was lent out last begins with.

ghost use Rattle.std.specs.Prelude.{◌≡◌, [], map, IfSome, is_some};
ghost use Rattle.sc_hosts.specs.Runs.{quiet_host};
ghost use Rattle.sc_hosts.specs.Steps.{live_at};
ghost use Rattle.sc_switch.specs.Beginnings.{BeginsAnyhow};

use crate::starting::quiet_net;
use sc_state::{Host, Net, Prepared, Session};
use sc_steps::live_at;
use sc_value::{AppId, Boxed, List};
use std::alloc::Global;
use std::marker::Model;
use std::mem::replace;

/// What the turn of a session's first event begins with.
#[derive(Drop)]
pub struct Begun {
    pub app: AppId,
    /// The moment of the turn, in milliseconds.
    pub now: u64,
    pub shown: Boxed<Prepared>,
}

/// A net with what the turn that was lent out last begins with, for as long as no step is taken. A
/// contract sees the net.
#[derive(Drop)]
pub struct Readied {
    net: Net<Session>,
    begun: Option<Begun>,
    /// The list of the hosts that there were before, without them: the next copy of the net takes
    /// its memory.
    room: List<Host<Session>>,
}

impl Model for Readied {
    ghost use Rattle.sc_state.specs.declared.net.Net.{Net as Hosts};
    ghost use Rattle.sc_state.specs.declared.session.Session.{Session as Kept};
    ghost use Rattle.sc_switch.specs.Beginnings.{IsBegun};

    ghost Value = { Hosts Kept };

    ghost view = { λ r. r.net };

    ghost invariant = { λ r. IsBegun r.net r.begun };
}

impl Readied {
    /// A net in which no turn has begun.
    #[tactic(auto, unfolding(crate::specs::Beginnings::IsBegun))]
    pub fn new(alloc: Global, net: Net<Session>) -> Readied
        ensures { result ≡ net }
    {
        Readied {
            net,
            begun: None,
            room: List::new(alloc),
        }
    }

    /// The net.
    pub fn get(&self) -> &Net<Session>
        ensures { result.now ≡ self.now }
    {
        &self.net
    }

    /// The last moment, in milliseconds.
    pub fn moment(&self) -> u64
        ensures { result ≡ self.now.moment }
    {
        self.net.moment
    }

    /// Keeps what the turn of this session at this moment begins with, where it is known.
    #[tactic(auto, unfolding(crate::specs::Beginnings::IsBegun))]
    pub fn keep(&mut self, app: AppId, now: u64, shown: Option<Boxed<Prepared>>)
        requires { IfSome shown (λ shown. BeginsAnyhow self.old app now shown) }
        ensures { self.new ≡ self.old }
    {
        if let Some(shown) = shown {
            self.begun = Some(Begun { app, now, shown });
        }
    }

    /// Hands out what the turn of this session at this moment begins with, where it is known.
    #[tactic(auto, using(crate::proofs::Beginnings::begun_of))]
    pub fn begun(&mut self, app: AppId, now: u64) -> Option<Boxed<Prepared>>
        ensures begun { IfSome result (λ shown. BeginsAnyhow self.old app now shown) }
        ensures same { self.new ≡ self.old }
    {
        match replace(&mut self.begun, None) {
            Some(begun) => shown_of(app, now, begun),
            None => None,
        }
    }

    /// Hands out an empty list, which may have memory for hosts.
    pub fn room(&mut self, alloc: Global) -> List<Host<Session>>
        ensures empty { result ≡ [] }
        ensures same { self.new ≡ self.old }
    {
        emptied(replace(&mut self.room, List::new(alloc)))
    }

    /// Another net takes the place of this one. What a step changed goes where a look-up costs
    /// least, as nobody else holds it now.
    #[tactic(auto, unfolding(crate::specs::Beginnings::IsBegun))]
    pub fn set(&mut self, alloc: Global, next: Net<Session>)
        ensures { self.new ≡ next }
    {
        self.begun = None;
        let hosts = replace(&mut self.net.hosts, List::new(alloc));
        self.room = emptied(hosts);
        self.net = next;
        settle_all(alloc, &mut self.net.hosts.items);
    }

    /// Hosts without sessions take the place of these, in this epoch, at the moment that is.
    #[tactic(auto, unfolding(crate::specs::Beginnings::IsBegun))]
    pub fn begin_epoch(&mut self, epoch: u32)
        ensures { self.new
            ≡ record {
              hosts = map (λ host. quiet_host) self.old.hosts;
              wire = [];
              epoch = epoch;
              moment = self.old.moment;
              count = 0;
              sent = [];
            } }
    {
        self.begun = None;
        quiet_net(epoch, &mut self.net);
    }
}

// What was kept, where it is of this session and this moment.
fn shown_of(app: AppId, now: u64, begun: Begun) -> Option<Boxed<Prepared>>
    ensures { IfSome result (λ shown. begun ≡ record { app = app; now = now; shown = shown }) }
{
    if begun.app != app || begun.now != now {
        drop(begun);
        return None;
    }
    let Begun { shown, .. } = begun;
    Some(shown)
}

// The list without its hosts, which keeps its memory.
fn emptied(hosts: List<Host<Session>>) -> List<Host<Session>>
    ensures { result ≡ [] }
{
    let mut hosts = hosts;
    hosts.items.clear();
    hosts
}

fn settle_all(alloc: Global, hosts: &mut [Host<Session>])
    ensures { hosts.new ≡ hosts.old }
{
    for host in hosts {
        host.settle(alloc);
    }
}

/// Whether the application session lives in a net.
pub fn lives_in(app: AppId, net: &Readied) -> bool
    ensures { result ≡ is_some (live_at app net.now) }
{
    live_at(app, net.get()).is_some()
}

/// Another net takes the place of the one that is kept.
pub fn set_net(alloc: Global, net: &mut Readied, next: Net<Session>)
    ensures { net.new ≡ next }
{
    net.set(alloc, next);
}

/// Hosts without sessions take the place of those that are kept, in this epoch.
pub fn begin_net(epoch: u32, net: &mut Readied)
    ensures { net.new
        ≡ record {
          hosts = map (λ host. quiet_host) net.old.hosts;
          wire = [];
          epoch = epoch;
          moment = net.old.moment;
          count = 0;
          sent = [];
        } }
{
    net.begin_epoch(epoch);
}

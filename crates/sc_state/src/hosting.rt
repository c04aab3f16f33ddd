//! A host whose copies have its lists in common, until one of them is changed.

ghost use Rattle.std.specs.Prelude.{◌≡◌, ◌++◌, ◌∷◌, [], Option, IfOk, OnOk, length, true, sum_by, filter};
ghost use Rattle.std.specs.List.{find};
ghost use Rattle.std.specs.Option.{option_copied};
ghost use Rattle.sc_value.specs.Lists.{change_first, remove_first};
ghost use Rattle.sc_book.specs.Words.{belongs, earliest, is_before, is_free};
ghost use Rattle.sc_state.specs.declared.host.Client.{Client};
ghost use Rattle.sc_state.specs.declared.host.Live.{Live};
ghost use Rattle.sc_state.specs.declared.host.Server.{Server};
ghost use Rattle.sc_state.specs.Entries.{least_due};
ghost use Rattle.sc_state.specs.Groups.{groups_of_client, groups_of_live, groups_of_server};
ghost use Rattle.sc_state.specs.Keeping.{first_number, is_live, is_same_client, without_ended};
ghost use Rattle.sc_state.specs.Standing.{is_client, is_server, due_of_client, due_of_server, busy_client, busy_server};
ghost use Rattle.std.specs.Arc.{arc_value};
ghost use Rattle.sc_state.specs.Sharing.{lists_of};

use crate::lists::HostLists;
use crate::{Client, Live, Server, Timed};
use sc_book::Probe;
use sc_value::{AppId, CloneIn, List, NoMemory, Shared};
use std::alloc::Global;
use std::marker::Model;
use std::sync::Arc;

/// A host: it knows its own transactions and sessions alone. A contract sees their lists. A copy
/// costs one owner until it is changed, and little then, however many there are.
#[derive(Drop)]
pub struct Host<S: Timed> {
    /// None where there is nothing yet, which takes no memory.
    lists: Option<Arc<HostLists<S>>>,
    /// The lists were changed since they were settled.
    changed: bool,
    alloc: Global,
}

impl<S: Timed> Model for Host<S> {
    ghost use Rattle.sc_state.specs.Hosts.{Host as Seen};
    ghost use Rattle.sc_state.specs.Sharing.{lists_of};

    ghost Value = { Seen S };

    ghost view = { λ h. lists_of h.lists };
}

impl<S: Timed> Host<S> {
    /// A host without sessions. It takes no memory.
    pub fn new(alloc: Global) -> Host<S>
        ensures { result ≡ record { clients = []; servers = []; sessions = []; last = 0 } }
    {
        Host {
            lists: None,
            changed: false,
            alloc,
        }
    }

    /// Lets go of all.
    pub fn clear(&mut self)
        ensures { self.new ≡ record { clients = []; servers = []; sessions = []; last = 0 } }
    {
        self.lists = None;
        self.changed = false;
    }

    /// Lets what was changed since the last time go where a look-up costs least. It is called once
    /// a step was taken, when no other copy lives. In constant time where nothing was changed.
    pub fn settle(&mut self, alloc: Global)
        ensures { self.new ≡ self.old }
    {
        if !self.changed {
            return;
        }
        if let Some(lists) = &mut self.lists {
            settle_in(alloc, lists);
        }
        self.changed = false;
    }

    // Gives the host lists that nobody else has, which it may change.
    fn own(&mut self) -> Result<(), NoMemory>
        ensures { OnOk result (self.new ≡ self.old) }
    {
        self.changed = true;
        if is_alone(&mut self.lists) {
            return Ok(());
        }
        let own = own_lists(self.alloc, &self.lists)?;
        self.lists = Some(own);
        Ok(())
    }

    /// The serial of the last session.
    pub fn last(&self) -> u64
        ensures { result ≡ self.now.last }
    {
        match &self.lists {
            Some(lists) => lists.last(),
            None => 0,
        }
    }

    /// Lets go of the transactions that are over, but for those of an INVITE whose session lives.
    /// In constant time where all are known to be kept.
    pub fn tidied(&mut self, alloc: Global) -> Result<(), NoMemory>
        ensures { OnOk result (self.new ≡ without_ended self.old) }
    {
        self.own()?;
        match &mut self.lists {
            Some(lists) => tidied_in(lists, alloc),
            None => Err(NoMemory),
        }
    }

    /// The session of this number, None where it doesn't live.
    pub fn live(&self, serial: u64) -> Option<&Shared<Live<S>>>
        ensures { option_copied result ≡ find (is_live serial) self.now.sessions }
    {
        match &self.lists {
            Some(lists) => lists.live(serial),
            None => None,
        }
    }

    /// The first session that passes. All that pass are of the group.
    pub fn find_live<P: Probe<Live<S>>>(
        &self,
        alloc: Global,
        group: u64,
        probe: &P,
    ) -> Result<Option<&Shared<Live<S>>>, NoMemory>
        requires { (x : Live S) → P.passes probe.now x ≡ true
            → belongs groups_of_live group x ≡ true }
        ensures { IfOk result
            (λ found. option_copied found ≡ find (P.passes probe.now) self.now.sessions) }
    {
        match &self.lists {
            Some(lists) => lists.find_live(alloc, group, probe),
            None => Ok(None),
        }
    }

    /// How many sessions live.
    pub fn live_count(&self) -> usize
        ensures { result ≡ length self.now.sessions }
    {
        match &self.lists {
            Some(lists) => lists.live_count(),
            None => 0,
        }
    }

    /// How many events wait.
    pub fn waiting_count(&self) -> u64
        ensures { result ≡ sum_by (λ live. length live.inbox) self.now.sessions }
    {
        match &self.lists {
            Some(lists) => lists.waiting_count(),
            None => 0,
        }
    }

    /// All sessions.
    pub fn lives(&self, alloc: Global) -> Result<List<Shared<Live<S>>>, NoMemory>
        ensures { IfOk result (λ all. all ≡ self.now.sessions) }
    {
        match &self.lists {
            Some(lists) => lists.lives(alloc),
            None => Ok(List::new(alloc)),
        }
    }

    /// The sessions of which something is due before a moment, in order. `NoMemory` too where
    /// changes aren't settled.
    pub fn due_lives(&self, alloc: Global, past: u64) -> Result<List<Shared<Live<S>>>, NoMemory>
        ensures { IfOk result
            (λ own.
            own
            ≡ filter (λ live. is_before past (least_due live.fired (S.entries live.session)))
            self.now.sessions) }
    {
        match &self.lists {
            Some(lists) => lists.due_lives(alloc, past),
            None => Ok(List::new(alloc)),
        }
    }

    /// The lowest number of an event that is first in its session, with the session's number, of
    /// the sessions that aren't among these. `NoMemory` too where changes aren't settled.
    #[tactic(auto, unfolding(sc_book::specs::Words::earliest))]
    pub fn next_but(&self, skip: &[u64]) -> Result<Option<(u64, u64)>, NoMemory>
        ensures { IfOk result
            (λ next.
            next
            ≡ earliest (λ live. live.serial) first_number
            (filter (λ live. is_free skip.now live.serial) self.now.sessions)) }
    {
        match &self.lists {
            Some(lists) => lists.next_but(skip),
            None => Ok(None),
        }
    }

    /// One session more, and the serial of the last one. `NoMemory` too where its number isn't
    /// above all.
    pub fn push_live(&mut self, live: Shared<Live<S>>, last: u64) -> Result<(), NoMemory>
        ensures { OnOk result
            (self.new
            ≡ record self.old { sessions = self.old.sessions ++ live ∷ []; last = last }) }
    {
        self.own()?;
        match &mut self.lists {
            Some(lists) => push_live_in(lists, live, last),
            None => Err(NoMemory),
        }
    }

    /// Puts a session in place of the one of its number.
    pub fn set_live(&mut self, live: Shared<Live<S>>) -> Result<(), NoMemory>
        ensures { OnOk result
            (self.new
            ≡ record self.old {
              sessions = change_first (is_live live.serial) (λ _. live) self.old.sessions;
            }) }
    {
        self.own()?;
        match &mut self.lists {
            Some(lists) => set_live_in(lists, live),
            None => Err(NoMemory),
        }
    }

    /// Takes the session of this number away, and lets go of the transactions that aren't kept
    /// without it.
    pub fn end_live(&mut self, alloc: Global, serial: u64) -> Result<(), NoMemory>
        ensures { OnOk result
            (self.new
            ≡ without_ended
            (record self.old { sessions = remove_first (is_live serial) self.old.sessions })) }
    {
        self.own()?;
        match &mut self.lists {
            Some(lists) => end_live_in(lists, alloc, serial),
            None => Err(NoMemory),
        }
    }

    /// The client transaction of this session's branch, or of its CANCEL, None where there is none.
    pub fn client(
        &self,
        alloc: Global,
        app: AppId,
        branch: u64,
        cancelling: bool,
    ) -> Result<Option<&Shared<Client>>, NoMemory>
        ensures { IfOk result
            (λ found.
            option_copied found ≡ find (is_client app branch cancelling) self.now.clients) }
    {
        match &self.lists {
            Some(lists) => lists.client(alloc, app, branch, cancelling),
            None => Ok(None),
        }
    }

    /// The first client transaction that passes. All that pass are of the group.
    pub fn find_client<P: Probe<Client>>(
        &self,
        alloc: Global,
        group: u64,
        probe: &P,
    ) -> Result<Option<&Shared<Client>>, NoMemory>
        requires { (x : Client) → P.passes probe.now x ≡ true
            → belongs groups_of_client group x ≡ true }
        ensures { IfOk result
            (λ found. option_copied found ≡ find (P.passes probe.now) self.now.clients) }
    {
        match &self.lists {
            Some(lists) => lists.find_client(alloc, group, probe),
            None => Ok(None),
        }
    }

    /// The client transactions of a group, in order: those of the session of this number are among
    /// them.
    pub fn clients_of(&self, alloc: Global, group: u64) -> Result<List<Shared<Client>>, NoMemory>
        ensures { IfOk result
            (λ own. own ≡ filter (belongs groups_of_client group) self.now.clients) }
    {
        match &self.lists {
            Some(lists) => lists.clients_of(alloc, group),
            None => Ok(List::new(alloc)),
        }
    }

    /// All client transactions.
    pub fn clients(&self, alloc: Global) -> Result<List<Shared<Client>>, NoMemory>
        ensures { IfOk result (λ all. all ≡ self.now.clients) }
    {
        match &self.lists {
            Some(lists) => lists.clients(alloc),
            None => Ok(List::new(alloc)),
        }
    }

    /// The client transactions that are due before a moment, in order. `NoMemory` too where changes
    /// aren't settled.
    pub fn due_clients(&self, alloc: Global, past: u64) -> Result<List<Shared<Client>>, NoMemory>
        ensures { IfOk result
            (λ own.
            own ≡ filter (λ client. is_before past (due_of_client client)) self.now.clients) }
    {
        match &self.lists {
            Some(lists) => lists.due_clients(alloc, past),
            None => Ok(List::new(alloc)),
        }
    }

    /// How many client transactions aren't over.
    pub fn busy_clients(&self) -> u64
        ensures { result ≡ sum_by busy_client self.now.clients }
    {
        match &self.lists {
            Some(lists) => lists.busy_clients(),
            None => 0,
        }
    }

    /// One client transaction more.
    pub fn push_client(&mut self, client: Shared<Client>) -> Result<(), NoMemory>
        ensures { OnOk result
            (self.new ≡ record self.old { clients = self.old.clients ++ client ∷ [] }) }
    {
        self.own()?;
        match &mut self.lists {
            Some(lists) => push_client_in(lists, client),
            None => Err(NoMemory),
        }
    }

    /// Puts a client transaction in place of the one of its session, branch and kind, and lets go
    /// of what isn't kept.
    pub fn change_client(&mut self, alloc: Global, client: Shared<Client>) -> Result<(), NoMemory>
        ensures { OnOk result
            (self.new
            ≡ without_ended
            (record self.old {
              clients = change_first (is_same_client client) (λ _. client) self.old.clients;
            })) }
    {
        self.own()?;
        match &mut self.lists {
            Some(lists) => change_client_in(lists, alloc, client),
            None => Err(NoMemory),
        }
    }

    /// The server transaction of this event, None where there is none.
    pub fn server(&self, event: u64) -> Option<&Shared<Server>>
        ensures { option_copied result ≡ find (is_server event) self.now.servers }
    {
        match &self.lists {
            Some(lists) => lists.server(event),
            None => None,
        }
    }

    /// The first server transaction that passes. All that pass are of the group.
    pub fn find_server<P: Probe<Server>>(
        &self,
        alloc: Global,
        group: u64,
        probe: &P,
    ) -> Result<Option<&Shared<Server>>, NoMemory>
        requires { (x : Server) → P.passes probe.now x ≡ true
            → belongs groups_of_server group x ≡ true }
        ensures { IfOk result
            (λ found. option_copied found ≡ find (P.passes probe.now) self.now.servers) }
    {
        match &self.lists {
            Some(lists) => lists.find_server(alloc, group, probe),
            None => Ok(None),
        }
    }

    /// How many server transactions there are.
    pub fn server_count(&self) -> usize
        ensures { result ≡ length self.now.servers }
    {
        match &self.lists {
            Some(lists) => lists.server_count(),
            None => 0,
        }
    }

    /// All server transactions.
    pub fn servers(&self, alloc: Global) -> Result<List<Shared<Server>>, NoMemory>
        ensures { IfOk result (λ all. all ≡ self.now.servers) }
    {
        match &self.lists {
            Some(lists) => lists.servers(alloc),
            None => Ok(List::new(alloc)),
        }
    }

    /// The server transactions that are due before a moment, in order. `NoMemory` too where changes
    /// aren't settled.
    pub fn due_servers(&self, alloc: Global, past: u64) -> Result<List<Shared<Server>>, NoMemory>
        ensures { IfOk result
            (λ own.
            own ≡ filter (λ server. is_before past (due_of_server server)) self.now.servers) }
    {
        match &self.lists {
            Some(lists) => lists.due_servers(alloc, past),
            None => Ok(List::new(alloc)),
        }
    }

    /// How many server transactions aren't over.
    pub fn busy_servers(&self) -> u64
        ensures { result ≡ sum_by busy_server self.now.servers }
    {
        match &self.lists {
            Some(lists) => lists.busy_servers(),
            None => 0,
        }
    }

    /// One server transaction more. `NoMemory` too where its event isn't above all.
    pub fn push_server(&mut self, server: Shared<Server>) -> Result<(), NoMemory>
        ensures { OnOk result
            (self.new ≡ record self.old { servers = self.old.servers ++ server ∷ [] }) }
    {
        self.own()?;
        match &mut self.lists {
            Some(lists) => push_server_in(lists, server),
            None => Err(NoMemory),
        }
    }

    /// Puts a server transaction in place of the one of its event.
    pub fn set_server(&mut self, server: Shared<Server>) -> Result<(), NoMemory>
        ensures { OnOk result
            (self.new
            ≡ record self.old {
              servers = change_first (is_server server.event) (λ _. server) self.old.servers;
            }) }
    {
        self.own()?;
        match &mut self.lists {
            Some(lists) => set_server_in(lists, server),
            None => Err(NoMemory),
        }
    }

    /// Puts a server transaction in place of the one of its event, and lets go of what isn't kept.
    pub fn change_server(&mut self, alloc: Global, server: Shared<Server>) -> Result<(), NoMemory>
        ensures { OnOk result
            (self.new
            ≡ without_ended
            (record self.old {
              servers = change_first (is_server server.event) (λ _. server) self.old.servers;
            })) }
    {
        self.own()?;
        match &mut self.lists {
            Some(lists) => change_server_in(lists, alloc, server),
            None => Err(NoMemory),
        }
    }
}

// ## Changes of lists that nobody else has

fn tidied_in<S: Timed>(lists: &mut Arc<HostLists<S>>, alloc: Global) -> Result<(), NoMemory>
    ensures { OnOk result (arc_value lists.new ≡ without_ended (arc_value lists.old)) }
{
    match Arc::get_mut(lists) {
        Some(lists) => lists.tidied(alloc),
        None => Err(NoMemory),
    }
}

fn push_live_in<S: Timed>(
    lists: &mut Arc<HostLists<S>>,
    live: Shared<Live<S>>,
    last: u64,
) -> Result<(), NoMemory>
    ensures { OnOk result
        (arc_value lists.new
        ≡ record (arc_value lists.old) { sessions = (arc_value lists.old).sessions ++ live ∷ []; last = last }) }
{
    match Arc::get_mut(lists) {
        Some(lists) => lists.push_live(live, last),
        None => Err(NoMemory),
    }
}

fn set_live_in<S: Timed>(
    lists: &mut Arc<HostLists<S>>,
    live: Shared<Live<S>>,
) -> Result<(), NoMemory>
    ensures { OnOk result
        (arc_value lists.new
        ≡ record (arc_value lists.old) {
          sessions = change_first (is_live live.serial) (λ _. live) (arc_value lists.old).sessions;
        }) }
{
    match Arc::get_mut(lists) {
        Some(lists) => lists.set_live(live),
        None => Err(NoMemory),
    }
}

fn end_live_in<S: Timed>(
    lists: &mut Arc<HostLists<S>>,
    alloc: Global,
    serial: u64,
) -> Result<(), NoMemory>
    ensures { OnOk result
        (arc_value lists.new
        ≡ without_ended
        (record (arc_value lists.old) { sessions = remove_first (is_live serial) (arc_value lists.old).sessions })) }
{
    match Arc::get_mut(lists) {
        Some(lists) => lists.end_live(alloc, serial),
        None => Err(NoMemory),
    }
}

fn push_client_in<S: Timed>(
    lists: &mut Arc<HostLists<S>>,
    client: Shared<Client>,
) -> Result<(), NoMemory>
    ensures { OnOk result
        (arc_value lists.new ≡ record (arc_value lists.old) { clients = (arc_value lists.old).clients ++ client ∷ [] }) }
{
    match Arc::get_mut(lists) {
        Some(lists) => lists.push_client(client),
        None => Err(NoMemory),
    }
}

fn change_client_in<S: Timed>(
    lists: &mut Arc<HostLists<S>>,
    alloc: Global,
    client: Shared<Client>,
) -> Result<(), NoMemory>
    ensures { OnOk result
        (arc_value lists.new
        ≡ without_ended
        (record (arc_value lists.old) {
          clients = change_first (is_same_client client) (λ _. client) (arc_value lists.old).clients;
        })) }
{
    match Arc::get_mut(lists) {
        Some(lists) => lists.change_client(alloc, client),
        None => Err(NoMemory),
    }
}

fn push_server_in<S: Timed>(
    lists: &mut Arc<HostLists<S>>,
    server: Shared<Server>,
) -> Result<(), NoMemory>
    ensures { OnOk result
        (arc_value lists.new ≡ record (arc_value lists.old) { servers = (arc_value lists.old).servers ++ server ∷ [] }) }
{
    match Arc::get_mut(lists) {
        Some(lists) => lists.push_server(server),
        None => Err(NoMemory),
    }
}

fn set_server_in<S: Timed>(
    lists: &mut Arc<HostLists<S>>,
    server: Shared<Server>,
) -> Result<(), NoMemory>
    ensures { OnOk result
        (arc_value lists.new
        ≡ record (arc_value lists.old) {
          servers = change_first (is_server server.event) (λ _. server) (arc_value lists.old).servers;
        }) }
{
    match Arc::get_mut(lists) {
        Some(lists) => lists.set_server(server),
        None => Err(NoMemory),
    }
}

fn change_server_in<S: Timed>(
    lists: &mut Arc<HostLists<S>>,
    alloc: Global,
    server: Shared<Server>,
) -> Result<(), NoMemory>
    ensures { OnOk result
        (arc_value lists.new
        ≡ without_ended
        (record (arc_value lists.old) {
          servers = change_first (is_server server.event) (λ _. server) (arc_value lists.old).servers;
        })) }
{
    match Arc::get_mut(lists) {
        Some(lists) => lists.change_server(alloc, server),
        None => Err(NoMemory),
    }
}

// Whether there are lists, and nobody else has them.
fn is_alone<S: Timed>(lists: &mut Option<Arc<HostLists<S>>>) -> bool
    ensures { lists_of lists.new ≡ lists_of lists.old }
{
    match lists {
        Some(lists) => is_own(lists),
        None => false,
    }
}

fn is_own<S: Timed>(lists: &mut Arc<HostLists<S>>) -> bool
    ensures { arc_value lists.new ≡ arc_value lists.old }
{
    match Arc::get_mut(lists) {
        Some(_) => true,
        None => false,
    }
}

// A copy of the lists, or none yet. It is rare beside the calls of those that are alone, which stay
// small without it.
#[inline(never)]
fn own_lists<S: Timed>(
    alloc: Global,
    lists: &Option<Arc<HostLists<S>>>,
) -> Result<Arc<HostLists<S>>, NoMemory>
    ensures { IfOk result (λ own. arc_value own ≡ lists_of lists.now) }
{
    match lists {
        Some(lists) => lists_copied(alloc, lists),
        None => {
            let own = Arc::new(alloc, HostLists::new(alloc))?;
            Ok(own)
        }
    }
}

fn lists_copied<S: Timed>(
    alloc: Global,
    lists: &HostLists<S>,
) -> Result<Arc<HostLists<S>>, NoMemory>
    ensures { IfOk result (λ own. arc_value own ≡ lists.now) }
{
    match lists.clone_in(alloc) {
        Ok(own) => Ok(Arc::new(alloc, own)?),
        Err(NoMemory) => Err(NoMemory),
    }
}

// Settles lists that nobody else has.
fn settle_in<S: Timed>(alloc: Global, lists: &mut Arc<HostLists<S>>)
    ensures { arc_value lists.new ≡ arc_value lists.old }
{
    if let Some(own) = Arc::get_mut(lists) {
        own.settle(alloc);
    }
}

impl<S: Timed> CloneIn for Host<S> {
    fn clone_in(&self, alloc: Global) -> Result<Host<S>, NoMemory> {
        match &self.lists {
            Some(lists) => {
                let lists = Some(Arc::try_clone(lists)?);
                Ok(Host {
                    lists,
                    changed: false,
                    alloc,
                })
            }
            None => Ok(Host::new(alloc)),
        }
    }
}

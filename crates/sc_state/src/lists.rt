//! The transactions and sessions of a host. Each call is what the call of its name of a host says.

ghost use Rattle.std.specs.Prelude.{◌≡◌, ◌++◌, ◌∷◌, [], Option, IfOk, OnOk, length, true, sum_by, filter};
ghost use Rattle.std.specs.List.{find};
ghost use Rattle.std.specs.Option.{option_copied};
ghost use Rattle.sc_value.specs.Lists.{change_first, remove_first};
ghost use Rattle.sc_book.specs.Words.{belongs, earliest, is_before, is_free};
ghost use Rattle.sc_state.specs.declared.host.Client.{Client};
ghost use Rattle.sc_state.specs.declared.host.Live.{Live};
ghost use Rattle.sc_state.specs.declared.host.Server.{Server};
ghost use Rattle.sc_state.specs.Entries.{least_due};
ghost use Rattle.sc_state.specs.Groups.{groups_of_client, groups_of_live, groups_of_server};
ghost use Rattle.sc_state.specs.Keeping.{first_number, is_live, is_same_client, without_ended};
ghost use Rattle.sc_state.specs.Standing.{is_client, is_server, due_of_client, due_of_server, busy_client, busy_server};

use crate::groups::branch_number;
use crate::keeping::{
    change_client, change_server, keep_clients, keep_servers, leave_clients, leave_servers,
};
use crate::probes::{NamedClient, is_kept_client, is_kept_server};
use crate::{Client, Live, Server, Timed};
use sc_book::{Line, Probe, Rows};
use sc_value::{AppId, CloneIn, List, NoMemory, Shared};
use std::alloc::Global;
use std::marker::Model;

/// The transactions and sessions of a host. A contract sees their lists. A copy costs little, and
/// so does a change, however many there are.
#[derive(Drop)]
pub struct HostLists<S: Timed> {
    clients: Line<Client>,
    servers: Rows<Server>,
    sessions: Rows<Live<S>>,
    /// The serial of its last session.
    last: u64,
    /// All transactions are kept. False: it isn't known.
    tidy: bool,
}

impl<S: Timed> Model for HostLists<S> {
    ghost use Rattle.std.specs.Prelude.{◌≡◌, true};
    ghost use Rattle.sc_state.specs.Hosts.{Host as Seen};
    ghost use Rattle.sc_state.specs.Keeping.{AllKept};

    ghost Value = { Seen S };

    ghost view = { λ h.
        record { clients = h.clients; servers = h.servers; sessions = h.sessions; last = h.last } };

    ghost invariant = { λ h. h.tidy ≡ true → AllKept h.sessions h.clients h.servers };
}

impl<S: Timed> HostLists<S> {
    #[tactic(auto, using(crate::proofs::KeptLaws::none_kept))]
    pub fn new(alloc: Global) -> HostLists<S>
        ensures { result ≡ record { clients = []; servers = []; sessions = []; last = 0 } }
    {
        HostLists {
            clients: Line::new(alloc),
            servers: Rows::new(alloc),
            sessions: Rows::new(alloc),
            last: 0,
            tidy: true,
        }
    }

    pub fn settle(&mut self, alloc: Global)
        ensures { self.new ≡ self.old }
    {
        self.clients.settle(alloc);
        self.servers.settle(alloc);
        self.sessions.settle(alloc);
    }

    pub fn last(&self) -> u64
        ensures { result ≡ self.now.last }
    {
        self.last
    }

    #[tactic(auto, using(crate::proofs::KeptLaws::tidied_is, crate::proofs::KeptLaws::clients_filtered, crate::proofs::KeptLaws::servers_filtered))]
    pub fn tidied(&mut self, alloc: Global) -> Result<(), NoMemory>
        ensures { OnOk result (self.new ≡ without_ended self.old) }
    {
        let tidy = self.tidy;
        self.tidy = false;
        keep_clients(alloc, tidy, &self.sessions, &mut self.clients)?;
        keep_servers(alloc, tidy, &self.sessions, &mut self.servers)?;
        self.tidy = true;
        Ok(())
    }

    pub fn live(&self, serial: u64) -> Option<&Shared<Live<S>>>
        ensures { option_copied result ≡ find (is_live serial) self.now.sessions }
    {
        self.sessions.find(serial)
    }

    pub fn find_live<P: Probe<Live<S>>>(
        &self,
        alloc: Global,
        group: u64,
        probe: &P,
    ) -> Result<Option<&Shared<Live<S>>>, NoMemory>
        requires { (x : Live S) → P.passes probe.now x ≡ true
            → belongs groups_of_live group x ≡ true }
        ensures { IfOk result
            (λ found. option_copied found ≡ find (P.passes probe.now) self.now.sessions) }
    {
        self.sessions.find_first(alloc, group, probe)
    }

    pub fn live_count(&self) -> usize
        ensures { result ≡ length self.now.sessions }
    {
        self.sessions.len()
    }

    pub fn waiting_count(&self) -> u64
        ensures { result ≡ sum_by (λ live. length live.inbox) self.now.sessions }
    {
        self.sessions.total()
    }

    pub fn lives(&self, alloc: Global) -> Result<List<Shared<Live<S>>>, NoMemory>
        ensures { IfOk result (λ all. all ≡ self.now.sessions) }
    {
        self.sessions.as_list(alloc)
    }

    pub fn due_lives(&self, alloc: Global, past: u64) -> Result<List<Shared<Live<S>>>, NoMemory>
        ensures { IfOk result
            (λ own.
            own
            ≡ filter (λ live. is_before past (least_due live.fired (S.entries live.session)))
            self.now.sessions) }
    {
        self.sessions.due_before(alloc, past)
    }

    pub fn next_but(&self, skip: &[u64]) -> Result<Option<(u64, u64)>, NoMemory>
        ensures { IfOk result
            (λ next.
            next
            ≡ earliest (λ live. live.serial) first_number
            (filter (λ live. is_free skip.now live.serial) self.now.sessions)) }
    {
        self.sessions.first_but(skip)
    }

    #[tactic(auto, using(crate::proofs::KeptLaws::begun_clients, crate::proofs::KeptLaws::begun_servers))]
    pub fn push_live(&mut self, live: Shared<Live<S>>, last: u64) -> Result<(), NoMemory>
        ensures { OnOk result
            (self.new
            ≡ record self.old { sessions = self.old.sessions ++ live ∷ []; last = last }) }
    {
        let tidy = self.tidy;
        self.tidy = false;
        self.sessions.push(live)?;
        self.last = last;
        self.tidy = tidy;
        Ok(())
    }

    #[tactic(auto, using(crate::proofs::KeptLaws::changed_clients, crate::proofs::KeptLaws::changed_servers))]
    pub fn set_live(&mut self, live: Shared<Live<S>>) -> Result<(), NoMemory>
        ensures { OnOk result
            (self.new
            ≡ record self.old {
              sessions = change_first (is_live live.serial) (λ _. live) self.old.sessions;
            }) }
    {
        let tidy = self.tidy;
        self.tidy = false;
        self.sessions.set(live)?;
        self.tidy = tidy;
        Ok(())
    }

    #[tactic(auto, using(crate::proofs::KeptLaws::clients_beside, crate::proofs::KeptLaws::servers_beside, crate::proofs::KeptLaws::tidied_is, crate::proofs::KeptLaws::clients_filtered, crate::proofs::KeptLaws::servers_filtered))]
    pub fn end_live(&mut self, alloc: Global, serial: u64) -> Result<(), NoMemory>
        ensures { OnOk result
            (self.new
            ≡ without_ended
            (record self.old { sessions = remove_first (is_live serial) self.old.sessions })) }
    {
        let tidy = self.tidy;
        self.tidy = false;
        self.sessions.remove(serial)?;
        leave_clients(alloc, tidy, serial, &self.sessions, &mut self.clients)?;
        leave_servers(alloc, tidy, serial, &self.sessions, &mut self.servers)?;
        self.tidy = true;
        Ok(())
    }

    #[tactic(auto, using(crate::proofs::KeptLaws::named_grouped))]
    pub fn client(
        &self,
        alloc: Global,
        app: AppId,
        branch: u64,
        cancelling: bool,
    ) -> Result<Option<&Shared<Client>>, NoMemory>
        ensures { IfOk result
            (λ found.
            option_copied found ≡ find (is_client app branch cancelling) self.now.clients) }
    {
        let probe = NamedClient {
            app,
            branch,
            cancelling,
        };
        let group = branch_number(app, branch);
        self.clients.find_first(alloc, group, &probe)
    }

    pub fn find_client<P: Probe<Client>>(
        &self,
        alloc: Global,
        group: u64,
        probe: &P,
    ) -> Result<Option<&Shared<Client>>, NoMemory>
        requires { (x : Client) → P.passes probe.now x ≡ true
            → belongs groups_of_client group x ≡ true }
        ensures { IfOk result
            (λ found. option_copied found ≡ find (P.passes probe.now) self.now.clients) }
    {
        self.clients.find_first(alloc, group, probe)
    }

    pub fn clients_of(&self, alloc: Global, group: u64) -> Result<List<Shared<Client>>, NoMemory>
        ensures { IfOk result
            (λ own. own ≡ filter (belongs groups_of_client group) self.now.clients) }
    {
        self.clients.of(alloc, group)
    }

    pub fn clients(&self, alloc: Global) -> Result<List<Shared<Client>>, NoMemory>
        ensures { IfOk result (λ all. all ≡ self.now.clients) }
    {
        self.clients.as_list(alloc)
    }

    pub fn due_clients(&self, alloc: Global, past: u64) -> Result<List<Shared<Client>>, NoMemory>
        ensures { IfOk result
            (λ own.
            own ≡ filter (λ client. is_before past (due_of_client client)) self.now.clients) }
    {
        self.clients.due_before(alloc, past)
    }

    pub fn busy_clients(&self) -> u64
        ensures { result ≡ sum_by busy_client self.now.clients }
    {
        self.clients.total()
    }

    #[tactic(auto, using(crate::proofs::KeptLaws::client_pushed))]
    pub fn push_client(&mut self, client: Shared<Client>) -> Result<(), NoMemory>
        ensures { OnOk result
            (self.new ≡ record self.old { clients = self.old.clients ++ client ∷ [] }) }
    {
        let tidy = self.tidy && is_kept_client(&self.sessions, client.get());
        self.tidy = false;
        self.clients.push(client)?;
        self.tidy = tidy;
        Ok(())
    }

    #[tactic(auto, using(crate::proofs::KeptLaws::tidied_is, crate::proofs::KeptLaws::clients_filtered, crate::proofs::KeptLaws::servers_filtered))]
    pub fn change_client(&mut self, alloc: Global, client: Shared<Client>) -> Result<(), NoMemory>
        ensures { OnOk result
            (self.new
            ≡ without_ended
            (record self.old {
              clients = change_first (is_same_client client) (λ _. client) self.old.clients;
            })) }
    {
        let tidy = self.tidy;
        self.tidy = false;
        change_client(alloc, tidy, &self.sessions, client, &mut self.clients)?;
        keep_servers(alloc, tidy, &self.sessions, &mut self.servers)?;
        self.tidy = true;
        Ok(())
    }

    pub fn server(&self, event: u64) -> Option<&Shared<Server>>
        ensures { option_copied result ≡ find (is_server event) self.now.servers }
    {
        self.servers.find(event)
    }

    pub fn find_server<P: Probe<Server>>(
        &self,
        alloc: Global,
        group: u64,
        probe: &P,
    ) -> Result<Option<&Shared<Server>>, NoMemory>
        requires { (x : Server) → P.passes probe.now x ≡ true
            → belongs groups_of_server group x ≡ true }
        ensures { IfOk result
            (λ found. option_copied found ≡ find (P.passes probe.now) self.now.servers) }
    {
        self.servers.find_first(alloc, group, probe)
    }

    pub fn server_count(&self) -> usize
        ensures { result ≡ length self.now.servers }
    {
        self.servers.len()
    }

    pub fn servers(&self, alloc: Global) -> Result<List<Shared<Server>>, NoMemory>
        ensures { IfOk result (λ all. all ≡ self.now.servers) }
    {
        self.servers.as_list(alloc)
    }

    pub fn due_servers(&self, alloc: Global, past: u64) -> Result<List<Shared<Server>>, NoMemory>
        ensures { IfOk result
            (λ own.
            own ≡ filter (λ server. is_before past (due_of_server server)) self.now.servers) }
    {
        self.servers.due_before(alloc, past)
    }

    pub fn busy_servers(&self) -> u64
        ensures { result ≡ sum_by busy_server self.now.servers }
    {
        self.servers.total()
    }

    #[tactic(auto, using(crate::proofs::KeptLaws::server_pushed))]
    pub fn push_server(&mut self, server: Shared<Server>) -> Result<(), NoMemory>
        ensures { OnOk result
            (self.new ≡ record self.old { servers = self.old.servers ++ server ∷ [] }) }
    {
        let tidy = self.tidy && is_kept_server(&self.sessions, server.get());
        self.tidy = false;
        self.servers.push(server)?;
        self.tidy = tidy;
        Ok(())
    }

    #[tactic(auto, using(crate::proofs::KeptLaws::server_changed))]
    pub fn set_server(&mut self, server: Shared<Server>) -> Result<(), NoMemory>
        ensures { OnOk result
            (self.new
            ≡ record self.old {
              servers = change_first (is_server server.event) (λ _. server) self.old.servers;
            }) }
    {
        let tidy = self.tidy;
        self.tidy = false;
        if !is_kept_server(&self.sessions, server.get()) {
            self.servers.set(server)?;
            return Ok(());
        }
        self.servers.set(server)?;
        self.tidy = tidy;
        Ok(())
    }

    #[tactic(auto, using(crate::proofs::KeptLaws::tidied_is, crate::proofs::KeptLaws::clients_filtered, crate::proofs::KeptLaws::servers_filtered))]
    pub fn change_server(&mut self, alloc: Global, server: Shared<Server>) -> Result<(), NoMemory>
        ensures { OnOk result
            (self.new
            ≡ without_ended
            (record self.old {
              servers = change_first (is_server server.event) (λ _. server) self.old.servers;
            })) }
    {
        let tidy = self.tidy;
        self.tidy = false;
        keep_clients(alloc, tidy, &self.sessions, &mut self.clients)?;
        change_server(alloc, tidy, &self.sessions, server, &mut self.servers)?;
        self.tidy = true;
        Ok(())
    }
}

impl<S: Timed> CloneIn for HostLists<S> {
    fn clone_in(&self, alloc: Global) -> Result<HostLists<S>, NoMemory> {
        let clients = self.clients.clone_in(alloc)?;
        let servers = self.servers.clone_in(alloc)?;
        let sessions = self.sessions.clone_in(alloc)?;
        Ok(HostLists {
            clients,
            servers,
            sessions,
            last: self.last,
            tidy: self.tidy,
        })
    }
}

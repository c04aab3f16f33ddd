//! What transactions and sessions tell of themselves, by which a host finds them.

ghost use Rattle.std.specs.Prelude.{None, length};
ghost use Rattle.sc_state.specs.Entries.{least_due};
ghost use Rattle.sc_state.specs.Groups.{groups_of_client, groups_of_server, groups_of_live};
ghost use Rattle.sc_state.specs.Keeping.{first_number};
ghost use Rattle.sc_state.specs.Standing.{busy_client, busy_server, due_of_client, due_of_server};

use crate::groups::{branch_number, serial_number, via_number};
use crate::standing::{due_of_client, due_of_server, state_of_client, state_of_server};
use crate::{Client, Live, Server, Timed};
use sc_book::{Item, Keyed};
use sc_stages::is_over;
use sc_value::NoMemory;

impl Item for Client {
    ghost weight = { λ client. busy_client client };

    ghost due = { λ client. due_of_client client };

    ghost first = { λ _. None };

    ghost groups = { λ client. groups_of_client client };

    fn weight(&self) -> u64 {
        u64::from(!is_over(state_of_client(self)))
    }

    fn due(&self) -> Result<Option<u64>, NoMemory> {
        due_of_client(self)
    }

    fn first(&self) -> Option<u64> {
        None
    }

    fn groups(&self) -> (u64, u64) {
        (self.app.serial, branch_number(self.app, self.branch))
    }
}

impl Item for Server {
    ghost weight = { λ server. busy_server server };

    ghost due = { λ server. due_of_server server };

    ghost first = { λ _. None };

    ghost groups = { λ server. groups_of_server server };

    fn weight(&self) -> u64 {
        u64::from(!is_over(state_of_server(self)))
    }

    fn due(&self) -> Result<Option<u64>, NoMemory> {
        due_of_server(self)
    }

    fn first(&self) -> Option<u64> {
        None
    }

    fn groups(&self) -> (u64, u64) {
        let via = self.request.get().head.via.as_slice();
        (self.app.serial, via_number(via))
    }
}

impl Keyed for Server {
    ghost key = { λ server. server.event };

    fn key(&self) -> u64 {
        self.event
    }
}

impl<S: Timed> Item for Live<S> {
    ghost weight = { λ live. length live.inbox };

    ghost due = { λ live. least_due live.fired (S.entries live.session) };

    ghost first = { λ live. first_number live };

    ghost groups = { λ live. groups_of_live live };

    fn weight(&self) -> u64 {
        self.inbox.len() as u64
    }

    fn due(&self) -> Result<Option<u64>, NoMemory> {
        Ok(self.session.get().least_due(self.fired.as_slice()))
    }

    fn first(&self) -> Option<u64> {
        match self.inbox.first() {
            Some(waiting) => Some(waiting.number),
            None => None,
        }
    }

    fn groups(&self) -> (u64, u64) {
        let group = serial_number(self.serial);
        (group, group)
    }
}

impl<S: Timed> Keyed for Live<S> {
    ghost key = { λ live. live.serial };

    fn key(&self) -> u64 {
        self.serial
    }
}

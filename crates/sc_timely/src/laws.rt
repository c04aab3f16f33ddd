ghost use Rattle.std.specs.Prelude.{◌≡◌, ℕ, List, [], Some, false};
ghost use Rattle.sc_value.specs.declared.ids.AppId.{AppId};
ghost use Rattle.sc_terms.specs.declared.steps.Step.{Step};
ghost use Rattle.sc_terms.specs.declared.steps.Step.TheVariants as steps;
ghost use Rattle.sc_parts.specs.declared.setup.Setup.{Setup};
ghost use Rattle.sc_parts.specs.declared.transactions.ClientItem.TheVariants as client_items;
ghost use Rattle.sc_parts.specs.declared.transactions.ServerItem.TheVariants as server_items;
ghost use Rattle.sc_state.specs.declared.host.Client.{Client};
ghost use Rattle.sc_state.specs.declared.host.Live.{Live};
ghost use Rattle.sc_state.specs.declared.host.Server.{Server};
ghost use Rattle.sc_state.specs.declared.net.Net.{Net};
ghost use Rattle.sc_state.specs.declared.session.Session.{Session};
ghost use Rattle.sc_model.specs.Transactions.{is_reached};
ghost use Rattle.sc_hosts.specs.Histories.{History, as_history, as_session};
ghost use Rattle.sc_hosts.specs.Runs.{after_step, net_from};
ghost use Rattle.sc_hosts.specs.Sessions.{Form};
ghost use Rattle.sc_hosts.specs.Steps.{live_at};
ghost use Rattle.sc_hosts.specs.Ticks.{due_items};
ghost use Rattle.sc_hosts.specs.Transacting.{client_passed, due_of_client, due_of_server, server_passed};
ghost use Rattle.sc_keyed.specs.Keyed.{AreApart};
ghost use Rattle.sc_timely.specs.Timely.{IsTaken, are_one};

/// After the step of a tick a session that lived lives on and is what it was, and each of its
/// entries whose moment has come, its expiry, its timers and those of its branches, has had its
/// event; so nothing of it is due any more. The contract is the law, for any net and each form in
/// which sessions are kept, and the call does nothing.
pub fn due_entries_are_taken()
    ensures session { (form : Form Session) (setup : Setup) (now : ℕ) (net : Net Session)
        (app : AppId) (live : Live Session) → live_at app net ≡ Some live
        → IsTaken form now app live (live_at app (after_step form setup net (steps.Tick now))) }
    ensures history { (form : Form History) (setup : Setup) (now : ℕ) (net : Net History)
        (app : AppId) (live : Live History) → live_at app net ≡ Some live
        → IsTaken form now app live (live_at app (after_step form setup net (steps.Tick now))) }
{}

/// Once a moment has come to a transaction, of a client or a server, no timer of it is due by that
/// moment. The contract is the law, and the call does nothing.
pub fn moments_end_timers()
    ensures client { (client : Client) (now : ℕ)
        → is_reached (due_of_client (client_passed (client_items.MomentCame now) client)) now
        ≡ false }
    ensures server { (server : Server) (now : ℕ)
        → is_reached (due_of_server (server_passed (server_items.MomentCame now) server)) now
        ≡ false }
{}

/// After any journal the step of a tick sends nothing outside: what is due is told to sessions, and
/// their turns send. The contract is the law, for each form in which sessions are kept, and the
/// call does nothing.
pub fn ticks_send_nothing()
    ensures session { (form : Form Session) (setup : Setup) (epoch began : ℕ) (journal : List Step)
        (now : ℕ)
        → (after_step form setup (net_from form setup epoch began journal) (steps.Tick now)).sent
        ≡ [] }
    ensures history { (form : Form History) (setup : Setup) (epoch began : ℕ) (journal : List Step)
        (now : ℕ)
        → (after_step form setup (net_from form setup epoch began journal) (steps.Tick now)).sent
        ≡ [] }
{}

/// Nothing that is due is left after a tick: after any journal, lawful or not, and then the step of
/// a tick, no entry of the whole net is due by its moment, of no transaction and of no session. The
/// contract is the law, for each form in which sessions are kept, and the call does nothing.
pub fn nothing_is_due()
    ensures session { (setup : Setup) (epoch began : ℕ) (journal : List Step) (now : ℕ)
        → due_items as_session now
        (after_step as_session setup (net_from as_session setup epoch began journal)
        (steps.Tick now)) ≡ [] }
    ensures history { (setup : Setup) (epoch began : ℕ) (journal : List Step) (now : ℕ)
        → due_items (as_history setup.config) now
        (after_step (as_history setup.config) setup
        (net_from (as_history setup.config) setup epoch began journal) (steps.Tick now)) ≡ [] }
{}

/// Each entry that is due is taken once: no two items of what is due in a net at a moment are of
/// one entry. The contract is the law, for any net and each form in which sessions are kept, and
/// the call does nothing.
pub fn due_items_are_once()
    ensures session { (form : Form Session) (now : ℕ) (net : Net Session)
        → AreApart are_one (due_items form now net) }
    ensures history { (form : Form History) (now : ℕ) (net : Net History)
        → AreApart are_one (due_items form now net) }
{}

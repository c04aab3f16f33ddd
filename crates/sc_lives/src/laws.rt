ghost use Rattle.std.specs.Prelude.{◌≡◌, ℕ, List, Some, length};
ghost use Rattle.std.specs.List.{All};
ghost use Rattle.sc_terms.specs.declared.steps.Step.{Step};
ghost use Rattle.sc_parts.specs.declared.setup.Setup.{Setup};
ghost use Rattle.sc_state.specs.Hosts.{Host};
ghost use Rattle.sc_state.specs.declared.session.Session.{Session};
ghost use Rattle.sc_hosts.specs.Histories.{History};
ghost use Rattle.sc_hosts.specs.Nets.{host_at};
ghost use Rattle.sc_hosts.specs.Runs.{net_from};
ghost use Rattle.sc_hosts.specs.Sessions.{Form};
ghost use Rattle.sc_hosts.specs.Steps.{live_at};

/// A live session is the one that is found by its name: after any journal, lawful or not, each live
/// session of a host is found by the number of the host and its own serial, so no two sessions of a
/// host have one serial. The contract is the law, for each form in which sessions are kept, and the
/// call does nothing.
pub fn sessions_are_found()
    ensures session { (form : Form Session) (setup : Setup) (epoch began : ℕ) (journal : List Step)
        (number : ℕ) (host : Host Session)
        → host_at number (net_from form setup epoch began journal) ≡ Some host
        → All
        (λ live.
        live_at (record { host = number; serial = live.serial })
        (net_from form setup epoch began journal) ≡ Some live) host.sessions }
    ensures history { (form : Form History) (setup : Setup) (epoch began : ℕ) (journal : List Step)
        (number : ℕ) (host : Host History)
        → host_at number (net_from form setup epoch began journal) ≡ Some host
        → All
        (λ live.
        live_at (record { host = number; serial = live.serial })
        (net_from form setup epoch began journal) ≡ Some live) host.sessions }
{}

/// A net has one host for each application: after any journal, lawful or not, it has as many hosts
/// as the configuration has applications. The contract is the law, for each form in which sessions
/// are kept, and the call does nothing.
pub fn hosts_are_applications()
    ensures session { (form : Form Session) (setup : Setup) (epoch began : ℕ) (journal : List Step)
        → length (net_from form setup epoch began journal).hosts ≡ length setup.config.app }
    ensures history { (form : Form History) (setup : Setup) (epoch began : ℕ) (journal : List Step)
        → length (net_from form setup epoch began journal).hosts ≡ length setup.config.app }
{}

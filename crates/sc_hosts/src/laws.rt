ghost use Rattle.std.specs.Prelude.{◌≡◌, ◌++◌, ℕ, List, false, true};
ghost use Rattle.sc_terms.specs.declared.steps.Step.{Step};
ghost use Rattle.sc_parts.specs.declared.setup.Setup.{Setup};
ghost use Rattle.sc_state.specs.declared.net.Net.{Net};
ghost use Rattle.sc_state.specs.declared.session.Session.{Session};
ghost use Rattle.sc_hosts.specs.Histories.{History};
ghost use Rattle.sc_hosts.specs.Nets.{deliver_first, is_busy};
ghost use Rattle.sc_hosts.specs.Runs.{after_delivery, all_sent, all_sent_from, net_from};
ghost use Rattle.sc_hosts.specs.Sessions.{Form};

/// Deliveries come to an end: then the wire is empty. They are one delivery and then the rest, none
/// where the wire is empty, and they send nothing outside. The contract is the law, for each form
/// in which sessions are kept, and the call does nothing.
pub fn deliveries_end()
    ensures empty { (form : Form Session) (setup : Setup) (net : Net Session)
        → is_busy (after_delivery form setup net) ≡ false }
    ensures next { (form : Form Session) (setup : Setup) (net : Net Session) → is_busy net ≡ true
        → after_delivery form setup net ≡ after_delivery form setup (deliver_first form setup net) }
    ensures idle { (form : Form Session) (setup : Setup) (net : Net Session) → is_busy net ≡ false
        → after_delivery form setup net ≡ net }
    ensures inside { (form : Form Session) (setup : Setup) (net : Net Session)
        → (after_delivery form setup net).sent ≡ net.sent }
    ensures history_empty { (form : Form History) (setup : Setup) (net : Net History)
        → is_busy (after_delivery form setup net) ≡ false }
    ensures history_inside { (form : Form History) (setup : Setup) (net : Net History)
        → (after_delivery form setup net).sent ≡ net.sent }
{}

/// What the beginning of a journal sends is the beginning of what it sends. The contract is the
/// law, and the call does nothing.
pub fn beginnings_send_beginnings()
    ensures { (form : Form Session) (setup : Setup) (epoch began : ℕ) (begun later : List Step)
        → all_sent form setup epoch began (begun ++ later)
        ≡ all_sent form setup epoch began begun
        ++ all_sent_from form setup (net_from form setup epoch began begun) later }
{}

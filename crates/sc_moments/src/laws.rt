ghost use Rattle.std.specs.Prelude.{◌≡◌, ◌≤◌, ◌++◌, ℕ, List, Ok, Some};
ghost use Rattle.std.specs.List.{fold};
ghost use Rattle.sc_value.specs.declared.ids.AppId.{AppId};
ghost use Rattle.sc_terms.specs.declared.steps.Line.{Line};
ghost use Rattle.sc_terms.specs.declared.steps.Step.{Step};
ghost use Rattle.sc_parts.specs.declared.setup.Setup.{Setup};
ghost use Rattle.sc_state.specs.declared.host.Live.{Live};
ghost use Rattle.sc_state.specs.declared.net.Net.{Net};
ghost use Rattle.sc_state.specs.declared.session.Session.{Session};
ghost use Rattle.sc_tokens.specs.Bytes.{Bytes};
ghost use Rattle.sc_script.specs.ScriptTexts.{script_of};
ghost use Rattle.sc_hosts.specs.Histories.{History};
ghost use Rattle.sc_hosts.specs.Runs.{IsLawful, chained_from, net_from};
ghost use Rattle.sc_hosts.specs.Sessions.{Form};
ghost use Rattle.sc_hosts.specs.Steps.{live_at};
ghost use Rattle.sc_runs.specs.Following.{Follows, Upto};
ghost use Rattle.sc_moments.specs.Moments.{moment_of, ticks_of, ticks_in};

/// The moment of a net is that of the last tick: a tick makes it its own, and no other step changes
/// it, with all that it makes hosts deliver. The contract is the law, for each form in which
/// sessions are kept, and the call does nothing.
pub fn moments_are_of_ticks()
    ensures session { (form : Form Session) (setup : Setup) (net : Net Session)
        (journal : List Step)
        → (chained_from form setup net journal).moment ≡ fold moment_of net.moment journal }
    ensures history { (form : Form History) (setup : Setup) (net : Net History)
        (journal : List Step)
        → (chained_from form setup net journal).moment ≡ fold moment_of net.moment journal }
{}

/// No tick of a script that is read is passed over: a journal that follows it has the ticks that
/// the script says, all of them and in its order, and one that follows a beginning of it has the
/// first of them. The contract is the law, for each form in which sessions are kept, and the call
/// does nothing.
pub fn ticks_are_taken()
    ensures session { (form : Form Session) (setup : Setup) (text : Bytes) (lines : List Line)
        (journal : List Step) → script_of text ≡ Ok lines → Follows form setup lines journal
        → ticks_of journal ≡ ticks_in lines }
    ensures history { (form : Form History) (setup : Setup) (text : Bytes) (lines : List Line)
        (journal : List Step) → script_of text ≡ Ok lines → Follows form setup lines journal
        → ticks_of journal ≡ ticks_in lines }
    ensures session_upto { (form : Form Session) (setup : Setup) (text : Bytes) (lines : List Line)
        (journal : List Step) → script_of text ≡ Ok lines → Upto form setup lines journal
        → (rest : List ℕ) × (ticks_in lines ≡ ticks_of journal ++ rest) }
    ensures history_upto { (form : Form History) (setup : Setup) (text : Bytes) (lines : List Line)
        (journal : List Step) → script_of text ≡ Ok lines → Upto form setup lines journal
        → (rest : List ℕ) × (ticks_in lines ≡ ticks_of journal ++ rest) }
{}

/// After a lawful journal the first event of a live session has been first since a moment that is
/// not after that of the net: no turn has to wait for a moment to come. The contract is the law,
/// for each form in which sessions are kept, and the call does nothing.
pub fn first_events_are_past()
    ensures session { (form : Form Session) (setup : Setup) (epoch began : ℕ) (journal : List Step)
        (app : AppId) (live : Live Session) → IsLawful form setup epoch began journal
        → live_at app (net_from form setup epoch began journal) ≡ Some live
        → live.since ≤ (net_from form setup epoch began journal).moment }
    ensures history { (form : Form History) (setup : Setup) (epoch began : ℕ) (journal : List Step)
        (app : AppId) (live : Live History) → IsLawful form setup epoch began journal
        → live_at app (net_from form setup epoch began journal) ≡ Some live
        → live.since ≤ (net_from form setup epoch began journal).moment }
{}

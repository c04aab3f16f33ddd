ghost use Rattle.std.specs.Prelude.{◌≡◌, ℕ, List, [], Some, false, slice_get};
ghost use Rattle.sc_value.specs.declared.ids.AppId.{AppId};
ghost use Rattle.sc_terms.specs.declared.calls.CallRecord.{CallRecord};
ghost use Rattle.sc_terms.specs.declared.calls.End.{End};
ghost use Rattle.sc_terms.specs.declared.steps.Step.{Step};
ghost use Rattle.sc_terms.specs.declared.steps.Step.TheVariants as steps;
ghost use Rattle.sc_parts.specs.declared.setup.Setup.{Setup};
ghost use Rattle.sc_state.specs.declared.host.Live.{Live};
ghost use Rattle.sc_state.specs.declared.net.Net.{Net};
ghost use Rattle.sc_state.specs.declared.queue.Waiting.{Waiting};
ghost use Rattle.sc_state.specs.declared.session.Session.{Session};
ghost use Rattle.sc_hosts.specs.Histories.{History};
ghost use Rattle.sc_hosts.specs.Runs.{after_step};
ghost use Rattle.sc_hosts.specs.Sessions.{Form};
ghost use Rattle.sc_hosts.specs.Steps.{live_at, outcome_by, turn_of};
ghost use Rattle.sc_waits.specs.Growing.{Follows, Grows, IsElsewhere};

/// A step that is neither a turn nor the withdrawal of an application session leaves the events
/// that wait in it as they are, each with its number and what it brings, and puts new ones behind
/// them. Its own turn, where it doesn't end the session, takes the first off and puts new ones
/// behind the rest. The contract is the law, for any net and each form in which sessions are kept,
/// and the call does nothing.
pub fn events_wait_in_order()
    ensures session { (form : Form Session) (setup : Setup) (app : AppId) (net : Net Session)
        (step : Step) → IsElsewhere app step → Grows app net (after_step form setup net step) }
    ensures history { (form : Form History) (setup : Setup) (app : AppId) (net : Net History)
        (step : Step) → IsElsewhere app step → Grows app net (after_step form setup net step) }
    ensures turn_session { (form : Form Session) (setup : Setup) (app : AppId) (net : Net Session)
        (live : Live Session) (waiting : Waiting) (event now : ℕ) (made : List CallRecord)
        (end : End) → live_at app net ≡ Some live → slice_get live.inbox 0 ≡ Some waiting
        → (outcome_by form setup.config live.session
        (turn_of (record net { sent = [] }) app waiting now made end)).ends
        ≡ false
        → Follows app net (after_step form setup net (steps.Turn end app event now made)) }
    ensures turn_history { (form : Form History) (setup : Setup) (app : AppId) (net : Net History)
        (live : Live History) (waiting : Waiting) (event now : ℕ) (made : List CallRecord)
        (end : End) → live_at app net ≡ Some live → slice_get live.inbox 0 ≡ Some waiting
        → (outcome_by form setup.config live.session
        (turn_of (record net { sent = [] }) app waiting now made end)).ends
        ≡ false
        → Follows app net (after_step form setup net (steps.Turn end app event now made)) }
{}

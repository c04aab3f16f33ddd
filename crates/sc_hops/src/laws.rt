ghost use Rattle.std.specs.Prelude.{◌≡◌, ℕ, List, Some};
ghost use Rattle.sc_value.specs.declared.ids.AppId.{AppId};
ghost use Rattle.sc_value.specs.declared.message.Request.{Request};
ghost use Rattle.sc_terms.specs.declared.calls.CallRecord.{CallRecord};
ghost use Rattle.sc_terms.specs.declared.calls.End.{End};
ghost use Rattle.sc_terms.specs.declared.steps.Step.TheVariants as steps;
ghost use Rattle.sc_parts.specs.declared.setup.Setup.{Setup};
ghost use Rattle.sc_state.specs.Hosts.{Host};
ghost use Rattle.sc_state.specs.declared.net.Net.{Net};
ghost use Rattle.sc_state.specs.declared.session.Session.{Session};
ghost use Rattle.sc_hosts.specs.Histories.{as_session};
ghost use Rattle.sc_hosts.specs.Nets.{host_at};
ghost use Rattle.sc_hosts.specs.Runs.{after_step};
ghost use Rattle.sc_hops.specs.Hops.{AreFit, GoesAs, HasBranchOf, HasMoreVias, IsFit, IsPassedBy, IsSettled, SendsLater, TakesLater};

/// When a live application session turns to a later request, all later requests with more Vias than
/// one that the step queues in any session are this request as it was passed on: with one Via more
/// and one hop less, by the own URI that names the session where it is queued, and without that
/// Route; and there is one only where the SipSession to which it came is that of a proxy. The
/// contract is the law, and the call does nothing.
pub fn turns_pass_on_what_came()
    ensures { (setup : Setup) (net : Net Session) (app : AppId) (number : ℕ) (request : Request)
        (now : ℕ) (made : List CallRecord) (end : End) → IsSettled net
        → (takes : TakesLater setup net app number request now made end)
        → (place : ℕ) (host : Host Session)
        → host_at place (after_step as_session setup net (steps.Turn end app number now made))
        ≡ Some host
        → AreFit
        (IsFit HasMoreVias (IsPassedBy setup.config takes.live.session request) setup.config
        net.epoch) net.count place host.sessions }
{}

/// When a turn of a live application session sends a later request on a branch of its own, all
/// later requests with its top Via that the step queues in any session go its way: they have its
/// Routes and Request-URI, but for an own top Route that was taken off as they came to the session
/// that it names, and its Call-ID. The contract is the law, and the call does nothing.
pub fn requests_go_their_way()
    ensures { (setup : Setup) (net : Net Session) (app : AppId) (event now : ℕ)
        (made : List CallRecord) (end : End) (place : ℕ) (request : Request) → IsSettled net
        → SendsLater setup net app now made end place request → (number : ℕ) (host : Host Session)
        → host_at number (after_step as_session setup net (steps.Turn end app event now made))
        ≡ Some host
        → AreFit (IsFit (HasBranchOf request) (GoesAs request) setup.config net.epoch) net.count
        number host.sessions }
{}

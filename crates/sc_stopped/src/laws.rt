ghost use Rattle.std.specs.Prelude.{◌≡◌, ℕ, List, Option, true, None, Some};
ghost use Rattle.sc_value.specs.declared.ids.AppId.{AppId};
ghost use Rattle.sc_value.specs.declared.ids.Place.{Place};
ghost use Rattle.sc_value.specs.declared.message.Message.TheVariants as messages;
ghost use Rattle.sc_value.specs.declared.message.Request.{Request};
ghost use Rattle.sc_terms.specs.declared.calls.CallRecord.{CallRecord};
ghost use Rattle.sc_terms.specs.declared.calls.End.{End};
ghost use Rattle.sc_terms.specs.declared.settings.Config.{Config};
ghost use Rattle.sc_terms.specs.declared.steps.Step.TheVariants as steps;
ghost use Rattle.sc_parts.specs.declared.setup.Setup.{Setup};
ghost use Rattle.sc_state.specs.declared.host.Live.{Live};
ghost use Rattle.sc_state.specs.declared.net.Entry.{Entry};
ghost use Rattle.sc_state.specs.declared.net.Net.{Net};
ghost use Rattle.sc_state.specs.declared.queue.Queued.TheVariants as queued;
ghost use Rattle.sc_state.specs.declared.session.Session.{Session};
ghost use Rattle.sc_tokens.specs.Bytes.{Bytes};
ghost use Rattle.sc_model.specs.Settings.{Charters};
ghost use Rattle.sc_hosts.specs.Histories.{History};
ghost use Rattle.sc_hosts.specs.Inboxes.{is_full};
ghost use Rattle.sc_hosts.specs.Nets.{deliver_first};
ghost use Rattle.sc_hosts.specs.Preparing.{prepared_session};
ghost use Rattle.sc_hosts.specs.PreparingRequests.{refusal_orders};
ghost use Rattle.sc_hosts.specs.Runs.{AllowedBy};
ghost use Rattle.sc_hosts.specs.Sessions.{Form};
ghost use Rattle.sc_hosts.specs.Steps.{before_delivery, live_at};
ghost use Rattle.sc_hosts.specs.Taking.{own_uri};
ghost use Rattle.sc_hosts.specs.Words.{does_not_exist, unavailable};
ghost use Rattle.sc_reached.specs.Reached.{IsLater};
ghost use Rattle.sc_stopped.specs.Stopped.{IsFirstTo, IsLaterTo, IsRefusedThere, RefusesFirst, net_with_answer, net_with_return};

/// A request from outside with a To tag that no transaction takes is answered 481 where no own URI
/// leads it to a session, its top Route or else its Request-URI, and where the session that its own
/// URI names doesn't live; it is answered 503 where that session lives and as many events wait for
/// it as may. An ACK gets no answer. Nothing else happens: no session and no transaction changes,
/// and nothing is put on the wire. Where a session is named, serials and the count of hosts have 64
/// bits. The contract is the law, for any net and each form in which sessions are kept, and the
/// call does nothing.
pub fn later_requests_are_answered_where_they_stop()
    ensures unled_session { (form : Form Session) (setup : Setup) (from : Place) (request : Request)
        (net : Net Session) → IsLater from request net → own_uri setup.config request ≡ None
        → before_delivery form setup (steps.In from (messages.Request request)) net
        ≡ net_with_answer setup.config from 481 does_not_exist request net }
    ensures unled_history { (form : Form History) (setup : Setup) (from : Place) (request : Request)
        (net : Net History) → IsLater from request net → own_uri setup.config request ≡ None
        → before_delivery form setup (steps.In from (messages.Request request)) net
        ≡ net_with_answer setup.config from 481 does_not_exist request net }
    ensures gone_session { (form : Form Session) (setup : Setup) (from : Place) (request : Request)
        (net : Net Session) (app : AppId) → IsLaterTo setup from request net app
        → live_at app net ≡ None
        → before_delivery form setup (steps.In from (messages.Request request)) net
        ≡ net_with_answer setup.config from 481 does_not_exist request net }
    ensures gone_history { (form : Form History) (setup : Setup) (from : Place) (request : Request)
        (net : Net History) (app : AppId) → IsLaterTo setup from request net app
        → live_at app net ≡ None
        → before_delivery form setup (steps.In from (messages.Request request)) net
        ≡ net_with_answer setup.config from 481 does_not_exist request net }
    ensures full_session { (form : Form Session) (setup : Setup) (from : Place) (request : Request)
        (net : Net Session) (app : AppId) (live : Live Session)
        → IsLaterTo setup from request net app → live_at app net ≡ Some live → is_full live ≡ true
        → before_delivery form setup (steps.In from (messages.Request request)) net
        ≡ net_with_answer setup.config from 503 unavailable request net }
    ensures full_history { (form : Form History) (setup : Setup) (from : Place) (request : Request)
        (net : Net History) (app : AppId) (live : Live History)
        → IsLaterTo setup from request net app → live_at app net ≡ Some live → is_full live ≡ true
        → before_delivery form setup (steps.In from (messages.Request request)) net
        ≡ net_with_answer setup.config from 503 unavailable request net }
{}

/// Between hosts it is the same: where the first of the wire is such a request, it is answered 481
/// where the session that its own URI names doesn't live, and 503 where as many events wait for
/// that session as may; the answer goes to the host that sent the request, behind all that is on
/// the wire, and an ACK gets none. Nothing else happens. Serials and the number of the host have 64
/// bits. The contract is the law, for any net and each form in which sessions are kept, and the
/// call does nothing.
pub fn delivered_requests_are_answered_where_they_stop()
    ensures gone_session { (form : Form Session) (setup : Setup) (entry : Entry) (request : Request)
        (net : Net Session) (app : AppId) → IsFirstTo setup entry request net app
        → live_at app net ≡ None
        → deliver_first form setup net
        ≡ net_with_return setup.config entry 481 does_not_exist request net }
    ensures gone_history { (form : Form History) (setup : Setup) (entry : Entry) (request : Request)
        (net : Net History) (app : AppId) → IsFirstTo setup entry request net app
        → live_at app net ≡ None
        → deliver_first form setup net
        ≡ net_with_return setup.config entry 481 does_not_exist request net }
    ensures full_session { (form : Form Session) (setup : Setup) (entry : Entry) (request : Request)
        (net : Net Session) (app : AppId) (live : Live Session)
        → IsFirstTo setup entry request net app → live_at app net ≡ Some live → is_full live ≡ true
        → deliver_first form setup net ≡ net_with_return setup.config entry 503 unavailable request net }
    ensures full_history { (form : Form History) (setup : Setup) (entry : Entry) (request : Request)
        (net : Net History) (app : AppId) (live : Live History)
        → IsFirstTo setup entry request net app → live_at app net ≡ Some live → is_full live ≡ true
        → deliver_first form setup net ≡ net_with_return setup.config entry 503 unavailable request net }
{}

/// In the turn of a session for a later request of which no SipSession of it has the dialog, or
/// whose sequence number is lower than one that came there before, nobody is called. The turn
/// answers the request first, by 481 or 500, an ACK not at all, and doesn't pass it on: what it
/// gives behind that sends no request in a dialog. It is so of any session and application, in each
/// turn that may be taken. The contract is the law, and the call does nothing.
pub fn turns_answer_what_no_dialog_takes()
    ensures { (config : Config) (ringing : List ℕ) (session : Session) (number : ℕ)
        (request : Request) (now : ℕ) (made : List CallRecord) (end : End)
        (charters : Option Charters)
        → AllowedBy charters
        (prepared_session config ringing session
        (record { number = number; event = queued.Request request }) now) made end
        → (code : ℕ) (reason : Bytes) → IsRefusedThere session request code reason
        → RefusesFirst config ringing session
        (record { number = number; event = queued.Request request }) now made end
        (refusal_orders number code reason request) }
{}

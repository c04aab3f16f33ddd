ghost use Rattle.sc_value.specs.declared.ids.AppId.{AppId};
ghost use Rattle.sc_value.specs.declared.ids.Place.{Place};
ghost use Rattle.sc_value.specs.declared.message.Message.TheVariants as messages;
ghost use Rattle.sc_value.specs.declared.message.Request.{Request};
ghost use Rattle.sc_terms.specs.declared.steps.Step.TheVariants as steps;
ghost use Rattle.sc_parts.specs.declared.setup.Setup.{Setup};
ghost use Rattle.sc_state.specs.declared.host.Live.{Live};
ghost use Rattle.sc_state.specs.declared.net.Entry.{Entry};
ghost use Rattle.sc_state.specs.declared.net.Net.{Net};
ghost use Rattle.sc_state.specs.declared.queue.Queued.TheVariants as queued;
ghost use Rattle.sc_state.specs.declared.session.Session.{Session};
ghost use Rattle.sc_hosts.specs.Histories.{History};
ghost use Rattle.sc_hosts.specs.Nets.{deliver_first};
ghost use Rattle.sc_hosts.specs.Sessions.{Form};
ghost use Rattle.sc_hosts.specs.Steps.{before_delivery};
ghost use Rattle.sc_hosts.specs.Taking.{without_own_route};
ghost use Rattle.sc_reached.specs.Reached.{IsDeliveredAlone, IsFirstFor, IsLaterFor, IsQueuedAlone, answered_at_once};

/// A request with a To tag that no transaction takes, and whose own URI, its top Route or else its
/// Request-URI, names a live session with room, is queued in that session as its last event,
/// without that Route; no other session changes, and nothing is put on the wire. Serials and the
/// count of hosts have 64 bits. The contract is the law, for any net and each form in which
/// sessions are kept, and the call does nothing.
pub fn later_requests_reach_their_session()
    ensures session { (form : Form Session) (setup : Setup) (from : Place) (request : Request)
        (net : Net Session) (app : AppId) (live : Live Session)
        → IsLaterFor setup from request net app live
        → IsQueuedAlone app live (queued.Request (without_own_route setup.config request)) net
        (before_delivery form setup (steps.In from (messages.Request request)) net) }
    ensures history { (form : Form History) (setup : Setup) (from : Place) (request : Request)
        (net : Net History) (app : AppId) (live : Live History)
        → IsLaterFor setup from request net app live
        → IsQueuedAlone app live (queued.Request (without_own_route setup.config request)) net
        (before_delivery form setup (steps.In from (messages.Request request)) net) }
{}

/// Between hosts it is the same: where the first of the wire is such a request, its delivery queues
/// it in the session that its own URI names, without that Route, and takes it off; no other session
/// changes, and all that is put on the wire is the 100 of an INVITE, to the host that sent it.
/// Serials and the number of the host have 64 bits. The contract is the law, for any net and each
/// form in which sessions are kept, and the call does nothing.
pub fn delivered_requests_reach_their_session()
    ensures session { (form : Form Session) (setup : Setup) (entry : Entry) (request : Request)
        (net : Net Session) (app : AppId) (live : Live Session)
        → IsFirstFor setup entry request net app live
        → IsDeliveredAlone app live (queued.Request (without_own_route setup.config request))
        (answered_at_once entry request) net (deliver_first form setup net) }
    ensures history { (form : Form History) (setup : Setup) (entry : Entry) (request : Request)
        (net : Net History) (app : AppId) (live : Live History)
        → IsFirstFor setup entry request net app live
        → IsDeliveredAlone app live (queued.Request (without_own_route setup.config request))
        (answered_at_once entry request) net (deliver_first form setup net) }
{}

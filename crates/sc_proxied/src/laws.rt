ghost use Rattle.std.specs.Prelude.{ℕ, List, Option};
ghost use Rattle.sc_value.specs.declared.ids.ReqId.{ReqId};
ghost use Rattle.sc_value.specs.declared.ids.SessId.{SessId};
ghost use Rattle.sc_value.specs.declared.message.Request.{Request};
ghost use Rattle.sc_terms.specs.declared.calls.ProxyOptions.{ProxyOptions};
ghost use Rattle.sc_hosts.specs.Branches.{new_proxy};
ghost use Rattle.sc_proxied.specs.ProxyLists.{IsHad, IsOfList, ProxyEvent, proxy_after};

/// A proxied request is what the list of all that happened to it says: the targets that it has had
/// and those that wait, whether the search has ended, the responses of which the best is forwarded,
/// the final response that was forwarded first, its branches, which of them are open, and which get
/// a CANCEL as the turn ends, each found by a search of the list. It is so after every list in
/// which each branch that is started is a new one and takes a target that waits, or is the one on
/// which a later request is passed on. The contract is the law, and the call does nothing.
pub fn proxies_are_of_their_lists()
    ensures { (req : ReqId) (sess : SessId) (event : ℕ) (request : Request)
        (how : Option ProxyOptions) (events : List ProxyEvent)
        → IsHad (new_proxy req sess event request how) events
        → IsOfList (new_proxy req sess event request how)
        (proxy_after (new_proxy req sess event request how) events) events }
{}

ghost use Rattle.std.specs.Prelude.{◌≡◌, ◌≤◌, ◌+◌, ◌*◌, ℕ, Bool, true, false, List, [], Some, if◌then◌else◌};
ghost use Rattle.std.specs.List.{filter_map, list_any};
ghost use Rattle.sc_value.specs.declared.ids.ReqId.{ReqId};
ghost use Rattle.sc_value.specs.declared.ids.SessId.{SessId};
ghost use Rattle.sc_value.specs.declared.message.Request.{Request};
ghost use Rattle.sc_terms.specs.declared.views.View.{View};
ghost use Rattle.sc_state.specs.declared.working.Play.{Play};
ghost use Rattle.sc_hosts.specs.Offers.{first_offer, session_progress};
ghost use Rattle.sc_hosts.specs.SessionTimers.{On, begin_timed, deadline};
ghost use Rattle.sc_promised.specs.Refreshing.{IsAccepted, IsBegun};
ghost use Rattle.sc_promised.specs.Reliable.{CountFrom, Fresh, Happened, IsTrace, Pending, Pracks, first_code, names_waiting, offer_by, offered_number, play_after, remembered_at, script_of, settles};

/// Over every list of offers, PRACKs and timers of one INVITE, in which nothing else writes its
/// attribute and no offer is refused behind its response, the accepted offers have the RSeq numbers
/// 1, 2, 3 and so on. The contract is the law, and the call does nothing.
pub fn offers_are_counted()
    ensures { (acts : List Happened) (n : ℕ) → IsTrace n Fresh acts
        → CountFrom 0 (filter_map offered_number acts) }
{}

/// The first offer of an INVITE is what the script of the charter makes. A PRACK is answered 200
/// exactly where its RAck names the offer that waits, and 481 else. While an offer waits no other
/// is made, until an act settles it: a PRACK that names it and is answered 200, or its timer, by
/// which the INVITE is answered 500. The contract is the law, and the call does nothing.
pub fn offers_wait()
    ensures first { (req : ReqId) (request : Request)
        → offer_by Fresh req request.head.cseq.number 183 session_progress []
        ≡ first_offer req request }
    ensures named { (view : View) (invited req : ReqId) (request : Request)
        → first_code (script_of view (Pracks invited req request))
        ≡ Some (if names_waiting (remembered_at view invited.0) request then 200 else 481) }
    ensures alone { (acts : List Happened) (n r c t : ℕ) → IsTrace n (Pending r c t) acts
        → list_any settles acts ≡ false → filter_map offered_number acts ≡ [] }
{}

/// Where a session timer of so many seconds is begun and no call of it is refused, a timer that
/// fires once is due at the deadline of the side, and the attribute of the SipSession names it. The
/// deadline of the side that refreshes is at least 32 seconds before the interval ends, for each
/// interval of 90 seconds or more; that of the other side is 30 seconds before it at 90. The
/// contract is the law, and the call does nothing.
pub fn timers_are_in_time()
    ensures begun { (play : Play) (sess : SessId) (n : ℕ) (me : Bool)
        → IsAccepted play (begin_timed sess play.view (On n me))
        → IsBegun play.view.now sess n me
        (play_after play (begin_timed sess play.view (On n me))).view }
    ensures early { (n : ℕ) → 90 ≤ n → deadline n true + 32000 ≤ 1000 * n }
    ensures other { deadline 90 false + 30000 ≡ 1000 * 90 }
{}

//! What the calls promise over every list of them.

ghost use Rattle.std.specs.Prelude.{◌≡◌, false, List, Ok, Option};
ghost use Rattle.std.specs.List.{list_any};
ghost use Rattle.sc_value.specs.declared.ids.ReqId.{ReqId};
ghost use Rattle.sc_value.specs.declared.ids.SessId.{SessId};
ghost use Rattle.sc_value.specs.declared.ids.TimerId.{TimerId};
ghost use Rattle.sc_value.specs.declared.message.Request.{Request};
ghost use Rattle.sc_tokens.specs.Bytes.{Bytes};
ghost use Rattle.sc_hosts.specs.Scripting.{where_some};
ghost use Rattle.sc_hosts.specs.Subscriptions.{Rule, changes, ended_sub, failed_sub, subscription_of};
ghost use Rattle.sc_turn.specs.Working.{Working, play_of};
ghost use Rattle.sc_notifies.specs.Notifying.{IsCarriedOut, IsFailed, IsOfPending, IsOfSubscription, accepted_by, activates, asked_of, ends, fired_of, next_of, read_of};
ghost use Rattle.sc_notifies.specs.States.{Accepts, Activates, Changes, Ends, Fails, Fires, Happened, IsActed, IsTrace, Pending, State, last_state, settles, table_state};
ghost use Rattle.sc_notifies.specs.declared.accepting.Grant.{Grant};
ghost use Rattle.sc_notifies.specs.declared.refused.Asked.{Asked};

/// Where a call of event notification isn't refused, the turn made the calls of its act and refused
/// none of them: what is said of lists of acts is said of these calls. The contract is the law, and
/// the call does nothing.
#[tactic(auto, using(crate::proofs::ActLaws::accept_acts, crate::proofs::ActLaws::change_acts, crate::proofs::ActLaws::activate_acts, crate::proofs::ActLaws::end_acts, crate::proofs::ActLaws::fire_acts, crate::proofs::ActLaws::fail_acts))]
pub fn calls_are_acts()
    ensures accept { (sess : SessId) (rule : Rule) (req : ReqId) (request : Request)
        (grant : Grant) (old new : Working) (given : Asked)
        → IsCarriedOut
        (accepted_by rule req sess (asked_of rule request)
        (read_of (play_of old).view sess request (asked_of rule request) grant))
        (asked_of rule request) old (Ok given) new
        → IsActed sess (Accepts rule req request grant) old new }
    ensures change { (sess : SessId) (body : Bytes) (old new : Working) (given : ReqId)
        → IsOfSubscription (subscription_of (play_of old).view sess)
        (changes (play_of old).view sess body) (next_of (play_of old).view) old (Ok given) new
        → IsActed sess (Changes body) old new }
    ensures activate { (sess : SessId) (body : Bytes) (old new : Working) (given : ReqId)
        → IsOfPending (subscription_of (play_of old).view sess)
        (activates (play_of old).view sess body) (next_of (play_of old).view) old (Ok given) new
        → IsActed sess (Activates body) old new }
    ensures end { (sess : SessId) (reason : Bytes) (old new : Working) (given : ReqId)
        → IsOfSubscription (subscription_of (play_of old).view sess)
        (ends (play_of old).view sess reason) (next_of (play_of old).view) old (Ok given) new
        → IsActed sess (Ends reason) old new }
    ensures fire { (sess : SessId) (id : TimerId) (old new : Working) (answer given : Option ReqId)
        → IsCarriedOut
        (where_some (fired_of (play_of old).view id) (ended_sub (play_of old).view)) answer old
        (Ok given) new
        → IsActed sess (Fires id) old new }
    ensures fail { (sess : SessId) (old new : Working) (given : Unit {0})
        → IsFailed (subscription_of (play_of old).view sess)
        (failed_sub (play_of old).view sess) old (Ok given) new
        → IsActed sess Fails old new }
{}

/// Over every list of acts for a SipSession's subscription, in which nothing else writes its
/// attributes, none is refused, and moments and timers have numbers of 64 bits, the subscription
/// stands as the table says: a SUBSCRIBE for some seconds begins it as granted, pending or active,
/// and renews it as it is, whatever the grant; one for 0 seconds, its end, its timer or a failed
/// NOTIFY ends it; a pending one becomes active where it is made so, and by nothing else. So a
/// pending subscription stays pending whatever renews it and whatever state is told, until it is
/// made active or ends. The contract is the law, and the call does nothing.
#[tactic(auto, using(crate::proofs::StateLaws::by_table, crate::proofs::StateLaws::stays_pending))]
pub fn subscriptions_keep_to_the_table()
    ensures table { (sess : SessId) (state : State) (acts : List Happened)
        → IsTrace sess state acts → last_state sess state acts ≡ table_state state acts }
    ensures pending { (sess : SessId) (acts : List Happened) → IsTrace sess Pending acts
        → list_any settles acts ≡ false → last_state sess Pending acts ≡ Pending }
{}

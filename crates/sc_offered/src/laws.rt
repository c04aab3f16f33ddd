ghost use Rattle.std.specs.Prelude.{◌≡◌, ℕ, Ok};
ghost use Rattle.sc_value.specs.declared.ids.ReqId.{ReqId};
ghost use Rattle.sc_value.specs.declared.ids.TimerId.{TimerId};
ghost use Rattle.sc_value.specs.declared.message.Request.{Request};
ghost use Rattle.sc_terms.specs.declared.views.View.{View};
ghost use Rattle.sc_tokens.specs.Bytes.{Bytes};
ghost use Rattle.sc_hosts.specs.Offers.{late_offer};
ghost use Rattle.sc_promised.specs.Reliable.{Late, Offers, Pracks, offers, script_of};
ghost use Rattle.sc_offers.specs.Offering.{named_offer, offer_rseq};
ghost use Rattle.sc_offered.specs.Acts.{prack_act};

/// What `offer` of `sc_offers` calls, where it gives an RSeq, are the calls of the act `Offers` of
/// `sc_promised`; what `late` calls are those of the act `Late`; and what `take_prack` calls, with
/// 200 to the INVITE behind them where the PRACK named the offer, are those of the act `Pracks`. So
/// the laws over every list of acts of an INVITE are those of these calls: the RSeq numbers are 1,
/// 2, 3 and so on, and while an offer waits no other is made. The contract is the law, and the call
/// does nothing.
#[tactic(auto, using(crate::proofs::ActLaws::offer_acts, crate::proofs::ActLaws::prack_acts, crate::proofs::ActLaws::late_acts))]
pub fn calls_are_acts()
    ensures offer { (view : View) (req : ReqId) (request : Request) (code : ℕ) (reason body : Bytes)
        (r : ℕ) → offer_rseq view req request ≡ Ok r
        → script_of view (Offers req request code reason body)
        ≡ offers req r request.head.cseq.number code reason body }
    ensures prack { (view : View) (invite req : ReqId) (request : Request)
        → script_of view (Pracks invite req request)
        ≡ prack_act invite req (named_offer view invite request) }
    ensures late { (view : View) (invite : ReqId) (id : TimerId)
        → script_of view (Late invite id) ≡ late_offer view invite.0 id }
{}

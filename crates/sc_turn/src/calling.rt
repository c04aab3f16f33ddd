//! A call that a turn makes, and what it answers.

ghost use Rattle.std.specs.Prelude.{◌≡◌, ◌+◌, ◌<◌, nat_le, false, OnErr, IfOk};
ghost use Rattle.sc_terms.specs.declared.calls.CallAnswer.TheVariants.{Number};
ghost use Rattle.sc_hosts.specs.Effects.{answer_of, answer_to_call};
ghost use Rattle.sc_hosts.specs.RefusalParts.{MOST_CALLS};
ghost use Rattle.sc_turn.specs.Working.{play_of, after_made, after_starved, Answers};

use crate::Turn;
use crate::making::{let_go, list_call};
use sc_refusals::MOST_CALLS;
use sc_terms::{Call, CallAnswer, Refusal};
use sc_value::{NoMemory, ReqId, TimerId, sum_u32};

impl Turn {
    /// Whether the list of calls is full.
    #[tactic(auto, unfolding(crate::specs::Working::play_of))]
    fn is_full(&self) -> bool
        requires { self.now.starved ≡ false }
        ensures { result ≡ nat_le MOST_CALLS (play_of self.now).listed }
    {
        MOST_CALLS <= self.play.listed
    }

    /// Lists a call with its answer, and takes its effect.
    #[tactic(auto, unfolding(crate::specs::Working::after_made, crate::specs::Working::after_starved, crate::specs::Working::play_of), using(crate::proofs::Listing::listed))]
    fn list(&mut self, call: Call) -> Result<CallAnswer, NoMemory>
        requires memory { self.old.starved ≡ false }
        requires room { (play_of self.old).listed < MOST_CALLS }
        ensures ok { IfOk result
            (λ answer.
            (answer_of (play_of self.old) call ≡ answer)
            × (self.new ≡ after_made call self.old)) }
        ensures err { OnErr result (self.new ≡ after_starved self.old) }
    {
        match list_call(self.alloc, &mut self.play, &mut self.calls.items, call) {
            Ok(answer) => Ok(answer),
            Err(NoMemory) => {
                self.starved = true;
                Err(NoMemory)
            }
        }
    }
}

impl Turn {
    /// Makes a call. It is listed with its answer, and takes its effect where it is accepted; a
    /// call beyond the 256th isn't listed. For want of memory the turn is over.
    #[tactic(auto, using(crate::proofs::Answering::made_fine, crate::proofs::Answering::made_number, crate::proofs::Answering::made_refused, crate::proofs::Answering::full_turn, crate::proofs::Answering::starved_turn, crate::proofs::Answering::starved_before))]
    pub(crate) fn make(&mut self, call: Call) -> Result<CallAnswer, Refusal>
        ensures { Answers (λ answer. answer) call self.old result self.new }
    {
        if self.starved {
            let_go(call);
            return Err(Refusal::NoMemory);
        }
        if self.is_full() {
            let_go(call);
            return Err(Refusal::Limit(256));
        }
        match self.list(call) {
            Ok(CallAnswer::Fine) => Ok(CallAnswer::Fine),
            Ok(CallAnswer::Number(n)) => Ok(CallAnswer::Number(n)),
            Ok(CallAnswer::Refused(refused)) => Err(refused),
            Err(NoMemory) => Err(Refusal::NoMemory),
        }
    }
}

impl Turn {
    /// A call that answers nothing but that it was accepted.
    #[tactic(auto, unfolding(crate::specs::Working::Answers, crate::specs::Working::IsAccepted, crate::specs::Working::IsRefused))]
    pub(crate) fn make_fine(&mut self, call: Call) -> Result<(), Refusal>
        ensures { Answers (λ _. answer_to_call (play_of self.old) call) call self.old result
            self.new }
    {
        match self.make(call) {
            Ok(_) => Ok(()),
            Err(refused) => Err(refused),
        }
    }

    /// The number of the next draft.
    #[tactic(auto, unfolding(crate::specs::Working::play_of))]
    fn next_draft(&self) -> Result<u32, NoMemory>
        ensures { self.now.starved ≡ false → IfOk result (λ n. n ≡ (play_of self.now).drafted + 1) }
    {
        sum_u32(self.play.drafted, 1)
    }

    /// The turn wants memory.
    #[tactic(auto, unfolding(crate::specs::Working::after_starved))]
    fn starve(&mut self)
        ensures { self.new ≡ after_starved self.old }
    {
        self.starved = true;
    }

    /// A call that makes a draft, and answers its number.
    #[tactic(auto, unfolding(crate::specs::Working::Answers, crate::specs::Working::IsAccepted, crate::specs::Working::IsRefused), using(crate::proofs::Answering::starved_turn))]
    pub(crate) fn make_draft(&mut self, call: Call) -> Result<u32, Refusal>
        requires { answer_to_call (play_of self.old) call
            ≡ Number ((play_of self.old).drafted + 1) }
        ensures { Answers (λ n. Number n) call self.old result self.new }
    {
        let number = match self.next_draft() {
            Ok(number) => number,
            Err(NoMemory) => {
                let_go(call);
                self.starve();
                return Err(Refusal::NoMemory);
            }
        };
        match self.make(call) {
            Ok(_) => Ok(number),
            Err(refused) => Err(refused),
        }
    }

    /// The number of the next request.
    #[tactic(auto, unfolding(crate::specs::Working::play_of))]
    fn next_request(&self) -> ReqId
        ensures { self.now.starved ≡ false → result.0 ≡ (play_of self.now).view.next_request }
    {
        ReqId(self.play.view.next_request)
    }

    /// A call that sends a request, and answers its number.
    #[tactic(auto, unfolding(crate::specs::Working::Answers, crate::specs::Working::IsAccepted, crate::specs::Working::IsRefused))]
    pub(crate) fn make_request(&mut self, call: Call) -> Result<ReqId, Refusal>
        requires { answer_to_call (play_of self.old) call
            ≡ Number (play_of self.old).view.next_request }
        ensures { Answers (λ req. Number req.0) call self.old result self.new }
    {
        let req = self.next_request();
        match self.make(call) {
            Ok(_) => Ok(req),
            Err(refused) => Err(refused),
        }
    }

    /// The number of the next timer.
    #[tactic(auto, unfolding(crate::specs::Working::play_of))]
    fn next_timer(&self) -> TimerId
        ensures { self.now.starved ≡ false → result.0 ≡ (play_of self.now).view.next_timer }
    {
        TimerId(self.play.view.next_timer)
    }

    /// A call that starts a timer, and answers its number.
    #[tactic(auto, unfolding(crate::specs::Working::Answers, crate::specs::Working::IsAccepted, crate::specs::Working::IsRefused))]
    pub(crate) fn make_timer(&mut self, call: Call) -> Result<TimerId, Refusal>
        requires { answer_to_call (play_of self.old) call
            ≡ Number (play_of self.old).view.next_timer }
        ensures { Answers (λ id. Number id.0) call self.old result self.new }
    {
        let id = self.next_timer();
        match self.make(call) {
            Ok(_) => Ok(id),
            Err(refused) => Err(refused),
        }
    }
}

//! The calls of a turn.

ghost use Rattle.sc_terms.specs.declared.calls.CallAnswer.{CallAnswer};
ghost use Rattle.sc_hosts.specs.Effects.{answer_to_call};
ghost use Rattle.sc_turn.specs.Working.{Answers};

use crate::Turn;
use sc_terms::{Answer, Ask, Call, Inside, Period, ProxyOptions, Refusal, Target};
use sc_value::{Directive, List, ReqId, SessId, Text, TimerId, Uri};

impl Turn {
    /// Answers a received request (JSR 289 section 10.2.2).
    ///
    /// # Errors
    ///
    /// Those of every call, and then the first of these that holds:
    /// - `NotYours`: the request was sent, or it is an ACK.
    /// - `AlreadyProxy`: it is proxied.
    /// - `AlreadyAnswered`: it has its final answer.
    /// - `SystemHeader`: the answer has a header that the container sets itself, or a Contact where its code and
    ///   method take none (RFC 3261 sections 10.3, 11.2 and 21).
    /// - `BadText`: 0 for a code below 101 or above 699, 1 for a reason that isn't one line, 2 and more for the
    ///   field of that place.
    #[tactic(auto, unfolding(sc_hosts::specs::Effects::answer_to_call, crate::specs::Working::Answers))]
    pub fn respond(&mut self, req: ReqId, answer: Answer) -> Result<(), Refusal>
        ensures { Answers (λ _. CallAnswer.Fine) (Call.Respond req answer) self.old result
            self.new }
    {
        self.make_fine(Call::Respond { req, answer })
    }

    /// Makes an initial request of one's own, in a SipSession of its own (JSR 289 section 10.1).
    /// Gives the number of its draft.
    ///
    /// # Errors
    ///
    /// Those of every call, and then the first of these that holds:
    /// - `Limit(64)`: the application session has as many SipSessions.
    /// - `NotYours`: the origin was sent.
    /// - `NotInitial`: CONTINUE and REVERSE need a received initial origin.
    /// - `SystemHeader`: a header that the container sets itself, or a Contact in another request than REGISTER.
    /// - `BadText`: 0 for the method, 2 and more for the field of that place.
    #[tactic(auto, unfolding(sc_hosts::specs::Effects::answer_to_call, crate::specs::Working::Answers))]
    pub fn create_request(&mut self, ask: Ask) -> Result<u32, Refusal>
        ensures { Answers (λ n. CallAnswer.Number n) (Call.CreateRequest ask) self.old result
            self.new }
    {
        self.make_draft(Call::CreateRequest { ask })
    }

    /// Makes a request in the dialog of a SipSession (RFC 3261 section 12.2). Gives the number of
    /// its draft.
    ///
    /// # Errors
    ///
    /// Those of every call, and then the first of these that holds:
    /// - `WrongState`: the SipSession has no open dialog, or the application proxies in it.
    /// - `SystemHeader`: a header that the container sets itself.
    /// - `BadText`: 0 for the method, 2 and more for the field of that place.
    #[tactic(auto, unfolding(sc_hosts::specs::Effects::answer_to_call, crate::specs::Working::Answers))]
    pub fn create_in_dialog(&mut self, sess: SessId, ask: Inside) -> Result<u32, Refusal>
        ensures { Answers (λ n. CallAnswer.Number n) (Call.CreateInDialog sess ask) self.old result
            self.new }
    {
        self.make_draft(Call::CreateInDialog { sess, ask })
    }

    /// Makes the request of a back-to-back agent's second leg, to this URI where one is given, and
    /// links both legs (JSR 289 section 12.3). Gives the number of its draft.
    ///
    /// # Errors
    ///
    /// Those of every call, and then the first of these that holds:
    /// - `NotYours`: the request was sent.
    /// - `NotInitial`: it didn't begin its SipSession.
    /// - `AlreadyProxy`: it is proxied.
    /// - `AlreadyAnswered`: it has its final answer.
    /// - `AlreadyLinked`: its SipSession is linked.
    /// - `NoHops`: its Max-Forwards is 0.
    /// - `Limit(64)`: the application session has as many SipSessions.
    #[tactic(auto, unfolding(sc_hosts::specs::Effects::answer_to_call, crate::specs::Working::Answers))]
    pub fn b2b_create(&mut self, req: ReqId, uri: Option<Uri>) -> Result<u32, Refusal>
        ensures { Answers (λ n. CallAnswer.Number n) (Call.B2bCreate req uri) self.old result
            self.new }
    {
        self.make_draft(Call::B2bCreate { req, uri })
    }

    /// Says how the router goes on for a draft (JSR 289 section 15.2.2).
    ///
    /// # Errors
    ///
    /// Those of every call, and then the first of these that holds:
    /// - `NotInitial`: the draft is no initial request, or CONTINUE and REVERSE lack a received initial origin.
    #[tactic(auto, unfolding(sc_hosts::specs::Effects::answer_to_call, crate::specs::Working::Answers))]
    pub fn set_directive(
        &mut self,
        draft: u32,
        directive: Directive,
        origin: Option<ReqId>,
    ) -> Result<(), Refusal>
        ensures { Answers (λ _. CallAnswer.Fine) (Call.SetDirective draft directive origin) self.old
            result self.new }
    {
        self.make_fine(Call::SetDirective {
            draft,
            directive,
            origin,
        })
    }

    /// Sends a draft. Gives the number of the request.
    ///
    /// # Errors
    ///
    /// Those of every call, and then the first of these that holds:
    /// - `WrongState`: its dialog has ended.
    #[tactic(auto, unfolding(sc_hosts::specs::Effects::answer_to_call, crate::specs::Working::Answers))]
    pub fn send(&mut self, draft: u32) -> Result<ReqId, Refusal>
        ensures { Answers (λ req. CallAnswer.Number req.0) (Call.Send draft) self.old result
            self.new }
    {
        self.make_request(Call::Send { draft })
    }

    /// Drops a draft; an initial one with its SipSession.
    ///
    /// # Errors
    ///
    /// Those of every call.
    #[tactic(auto, unfolding(sc_hosts::specs::Effects::answer_to_call, crate::specs::Working::Answers))]
    pub fn discard(&mut self, draft: u32) -> Result<(), Refusal>
        ensures { Answers (λ _. CallAnswer.Fine) (Call.Discard draft) self.old result self.new }
    {
        self.make_fine(Call::Discard { draft })
    }

    /// Acknowledges the 2xx to an INVITE that came in this SipSession (RFC 3261 section 13.2.2.4).
    ///
    /// # Errors
    ///
    /// Those of every call, and then the first of these that holds:
    /// - `NotSent`: no 2xx waits for its ACK there.
    #[tactic(auto, unfolding(sc_hosts::specs::Effects::answer_to_call, crate::specs::Working::Answers))]
    pub fn ack(&mut self, sess: SessId, body: Text) -> Result<(), Refusal>
        ensures { Answers (λ _. CallAnswer.Fine) (Call.Ack sess body) self.old result self.new }
    {
        self.make_fine(Call::Ack { sess, body })
    }

    /// Cancels a sent INVITE (RFC 3261 section 9.1).
    ///
    /// # Errors
    ///
    /// Those of every call, and then the first of these that holds:
    /// - `NotSent`: the request was received, or it is no INVITE.
    /// - `WrongState`: it has its final answer.
    #[tactic(auto, unfolding(sc_hosts::specs::Effects::answer_to_call, crate::specs::Working::Answers))]
    pub fn cancel(&mut self, req: ReqId) -> Result<(), Refusal>
        ensures { Answers (λ _. CallAnswer.Fine) (Call.Cancel req) self.old result self.new }
    {
        self.make_fine(Call::Cancel { req })
    }

    /// Proxies a received request to these targets (JSR 289 section 10.2). The options count where
    /// it wasn't proxied before.
    ///
    /// # Errors
    ///
    /// Those of every call, and then the first of these that holds:
    /// - `NotYours`: the request was sent.
    /// - `NotInitial`: it didn't begin its SipSession.
    /// - `AlreadyAnswered`: it has the application's own final answer.
    /// - `AlreadyProxy`: a final response was forwarded.
    /// - `WrongState`: its SipSession has left INITIAL by an answer of the application.
    /// - `NoHops`: its Max-Forwards is 0.
    /// - `BadText`: 0 for no target, 1 for a time of 0 or above 3,600 seconds.
    /// - `Limit(32)`: the application session would have more branches.
    #[tactic(auto, unfolding(sc_hosts::specs::Effects::answer_to_call, crate::specs::Working::Answers))]
    pub fn proxy_to(
        &mut self,
        req: ReqId,
        targets: List<Uri>,
        options: ProxyOptions,
    ) -> Result<(), Refusal>
        ensures { Answers (λ _. CallAnswer.Fine) (Call.ProxyTo req targets options) self.old result
            self.new }
    {
        self.make_fine(Call::ProxyTo {
            req,
            targets,
            options,
        })
    }

    /// Cancels the branches of a proxied request.
    ///
    /// # Errors
    ///
    /// Those of every call, and then the first of these that holds:
    /// - `NotSent`: the request isn't proxied.
    /// - `AlreadyAnswered`: a final response was forwarded.
    #[tactic(auto, unfolding(sc_hosts::specs::Effects::answer_to_call, crate::specs::Working::Answers))]
    pub fn proxy_cancel(&mut self, req: ReqId) -> Result<(), Refusal>
        ensures { Answers (λ _. CallAnswer.Fine) (Call.ProxyCancel req) self.old result self.new }
    {
        self.make_fine(Call::ProxyCancel { req })
    }

    /// Answers the received request that began this SipSession, which is linked (JSR 289 section
    /// 12.3).
    ///
    /// # Errors
    ///
    /// Those of every call, and then the first of these that holds:
    /// - `NotLinked`: the SipSession isn't linked.
    /// - Those of [`respond`](Turn::respond); `NotYours` where no received request began it.
    #[tactic(auto, unfolding(sc_hosts::specs::Effects::answer_to_call, crate::specs::Working::Answers))]
    pub fn b2b_respond(&mut self, sess: SessId, answer: Answer) -> Result<(), Refusal>
        ensures { Answers (λ _. CallAnswer.Fine) (Call.B2bRespond sess answer) self.old result
            self.new }
    {
        self.make_fine(Call::B2bRespond { sess, answer })
    }

    /// Links two SipSessions.
    ///
    /// # Errors
    ///
    /// Those of every call, and then the first of these that holds:
    /// - `AlreadyLinked`: they are the same, or one is linked.
    /// - `WrongState`: one is TERMINATED.
    #[tactic(auto, unfolding(sc_hosts::specs::Effects::answer_to_call, crate::specs::Working::Answers))]
    pub fn link(&mut self, a: SessId, b: SessId) -> Result<(), Refusal>
        ensures { Answers (λ _. CallAnswer.Fine) (Call.Link a b) self.old result self.new }
    {
        self.make_fine(Call::Link { a, b })
    }

    /// Takes the link of this SipSession away, on both sides.
    ///
    /// # Errors
    ///
    /// Those of every call, and then the first of these that holds:
    /// - `NotLinked`: it isn't linked.
    #[tactic(auto, unfolding(sc_hosts::specs::Effects::answer_to_call, crate::specs::Working::Answers))]
    pub fn unlink(&mut self, a: SessId) -> Result<(), Refusal>
        ensures { Answers (λ _. CallAnswer.Fine) (Call.Unlink a) self.old result self.new }
    {
        self.make_fine(Call::Unlink { a })
    }

    /// Starts a timer that fires after so many milliseconds (JSR 289 section 8). Gives its number.
    ///
    /// # Errors
    ///
    /// Those of every call, and then the first of these that holds:
    /// - `BadText(1)`: a period of 0.
    /// - `Limit(64)`: as many timers are active.
    #[tactic(auto, unfolding(sc_hosts::specs::Effects::answer_to_call, crate::specs::Working::Answers))]
    pub fn start_timer(
        &mut self,
        delay_ms: u32,
        period: Period,
        info: Text,
    ) -> Result<TimerId, Refusal>
        ensures { Answers (λ id. CallAnswer.Number id.0) (Call.StartTimer delay_ms period info)
            self.old result self.new }
    {
        self.make_timer(Call::StartTimer {
            delay_ms,
            period,
            info,
        })
    }

    /// Ends a timer.
    ///
    /// # Errors
    ///
    /// Those of every call, and then the first of these that holds:
    /// - `NotYours`: no such timer is active.
    #[tactic(auto, unfolding(sc_hosts::specs::Effects::answer_to_call, crate::specs::Working::Answers))]
    pub fn cancel_timer(&mut self, id: TimerId) -> Result<(), Refusal>
        ensures { Answers (λ _. CallAnswer.Fine) (Call.CancelTimer id) self.old result self.new }
    {
        self.make_fine(Call::CancelTimer { id })
    }

    /// Sets an attribute of the application session. One that is set again keeps its place.
    ///
    /// # Errors
    ///
    /// Those of every call, and then the first of these that holds:
    /// - `Limit(4096)`: the names and values would have more bytes.
    #[tactic(auto, unfolding(sc_hosts::specs::Effects::answer_to_call, crate::specs::Working::Answers))]
    pub fn set_attribute(&mut self, name: Text, value: Text) -> Result<(), Refusal>
        ensures { Answers (λ _. CallAnswer.Fine) (Call.SetAttribute name value) self.old result
            self.new }
    {
        self.make_fine(Call::SetAttribute { name, value })
    }

    /// Removes an attribute.
    ///
    /// # Errors
    ///
    /// Those of every call, and then the first of these that holds:
    /// - `NotYours`: it isn't set.
    #[tactic(auto, unfolding(sc_hosts::specs::Effects::answer_to_call, crate::specs::Working::Answers))]
    pub fn remove_attribute(&mut self, name: Text) -> Result<(), Refusal>
        ensures { Answers (λ _. CallAnswer.Fine) (Call.RemoveAttribute name) self.old result
            self.new }
    {
        self.make_fine(Call::RemoveAttribute { name })
    }

    /// Lets the application session expire so many minutes after this turn, 0 or less for never
    /// (JSR 289 section 6.1.2.1).
    ///
    /// # Errors
    ///
    /// Those of every call.
    #[tactic(auto, unfolding(sc_hosts::specs::Effects::answer_to_call, crate::specs::Working::Answers))]
    pub fn set_expires(&mut self, minutes: i32) -> Result<(), Refusal>
        ensures { Answers (λ _. CallAnswer.Fine) (Call.SetExpires minutes) self.old result
            self.new }
    {
        self.make_fine(Call::SetExpires { minutes })
    }

    /// Sets whether the application session or a SipSession goes away by itself once it is ready
    /// (JSR 289 section 6.1.2.2).
    ///
    /// # Errors
    ///
    /// Those of every call.
    #[tactic(auto, unfolding(sc_hosts::specs::Effects::answer_to_call, crate::specs::Working::Answers))]
    pub fn set_ready_flag(&mut self, target: Target, flag: bool) -> Result<(), Refusal>
        ensures { Answers (λ _. CallAnswer.Fine) (Call.SetReadyFlag target flag) self.old result
            self.new }
    {
        self.make_fine(Call::SetReadyFlag { target, flag })
    }

    /// Ends a SipSession: what it was asked is answered 500, and its INVITEs are cancelled.
    ///
    /// # Errors
    ///
    /// Those of every call.
    #[tactic(auto, unfolding(sc_hosts::specs::Effects::answer_to_call, crate::specs::Working::Answers))]
    pub fn invalidate_session(&mut self, sess: SessId) -> Result<(), Refusal>
        ensures { Answers (λ _. CallAnswer.Fine) (Call.InvalidateSession sess) self.old result
            self.new }
    {
        self.make_fine(Call::InvalidateSession { sess })
    }

    /// Ends the application session at the end of this turn. No further call is accepted.
    ///
    /// # Errors
    ///
    /// Those of every call.
    #[tactic(auto, unfolding(sc_hosts::specs::Effects::answer_to_call, crate::specs::Working::Answers))]
    pub fn invalidate_application(&mut self) -> Result<(), Refusal>
        ensures { Answers (λ _. CallAnswer.Fine) (Call.InvalidateApplication) self.old result
            self.new }
    {
        self.make_fine(Call::InvalidateApplication)
    }
}

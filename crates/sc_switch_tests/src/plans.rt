//! What the servlets of the cases do, as data.

use sc_terms::{End, Period};

/// What the only servlet of a case does. Where nothing else is said, it makes no call at any event
/// but the request that begins its application session.
#[derive(Clone, Copy)]
pub enum Plan {
    /// That of the kind `answer`.
    Answers,
    /// That of the kind `ringer`.
    Rings,
    /// It makes no call.
    Silent,
    /// It fails.
    Faults,
    /// It answers 200, and then fails.
    AnswersAndFaults,
    /// It answers 180, and fails at each later request.
    FaultsLater,
    /// It ends as one that wanted memory.
    Starves,
    /// It answers 486.
    Rejects,
    /// It sets the attribute `param` to the first parameter.
    Notes,
    /// It starts a timer that is due after a second, once.
    TimesOnce,
    /// It starts a timer that is due after a second, and then each half second.
    TimesByRate,
    /// It starts a timer that is due after a second, and then half a second after each turn.
    TimesByDelay,
    /// It answers 180 and starts a timer, and ends that at a later request.
    EndsTimer,
    /// It answers 180, and at a later request moves the expiry to ten minutes from then.
    MovesExpiry,
    /// It proxies to two targets, one after another.
    Proxies,
    /// It proxies so, and then fails.
    ProxiesAndFaults,
    /// It proxies to both targets at once, each for two seconds.
    Forks,
    /// It proxies to two targets, one after another, and at a response it cancels the branches.
    CancelsAtResponse,
    /// It proxies to the first target, cancels that, and proxies to the second.
    CancelsAndAdds,
    /// It proxies to the first target; at a final response that isn't a success it adds the second.
    AddsTarget,
    /// It answers 200, and clears the flag of the application session.
    StaysUnready,
    /// It answers 200, and clears the flag of the SipSession.
    KeepsSession,
    /// It makes a request of its own, and discards it.
    Discards,
    /// It makes a request of its own, and neither sends nor discards it.
    Forgets,
    /// It sends a request of its own and links both SipSessions; at a response it takes the link
    /// away.
    Links,
    /// It sends an INVITE of its own, and cancels that.
    SendsAndCancels,
    /// It sends an INVITE of its own, and ends the application session.
    SendsAndEnds,
    /// It ends the application session.
    Ends,
    /// It answers 200, and ends the application session.
    AnswersAndEnds,
    /// It answers 180; at a later request it ends the SipSession, and then fails.
    EndsSessionAndFaults,
}

/// A call on the numbers that a case has: request 1 with SipSession 1, and what the application
/// adds.
#[derive(Clone, Copy)]
pub enum Deed {
    /// No call.
    Nothing,
    /// Answers the request with this code.
    Answer(u16),
    /// Sets the attribute `param` to the first parameter.
    Note,
    /// Starts a timer that is due after a second, and then with this period.
    Start(Period),
    /// Ends the timer.
    EndTimer,
    /// Moves the expiry to ten minutes from now.
    MoveExpiry,
    /// Proxies the request.
    Proxy(Proxying),
    /// Cancels the branches of the request.
    CancelProxy,
    /// Clears the flag of the application session.
    Unready,
    /// Clears the flag of SipSession 1.
    UnreadySession,
    /// Makes a MESSAGE of the application's own.
    DraftMessage,
    /// Makes an INVITE of the application's own.
    DraftInvite,
    /// Discards what was made.
    Discard,
    /// Sends what was made.
    Send,
    /// Cancels what was sent.
    Cancel,
    /// Links SipSessions 1 and 2.
    Link,
    /// Takes the link of SipSession 1 away.
    Unlink,
    /// Ends SipSession 1.
    EndSession,
    /// Ends the application session.
    End,
}

/// To which targets a request is proxied.
#[derive(Clone, Copy)]
pub enum Proxying {
    /// To both, one after another.
    InTurn,
    /// To both at once, each for two seconds.
    AtOnce,
    /// To the first.
    ToFirst,
    /// To the second.
    ToSecond,
}

/// What is done at an event, in order, and how the turn ends then. A refused call ends it as one
/// that wanted memory, which a case then sees.
#[derive(Clone, Copy)]
pub struct Part {
    pub first: Deed,
    pub second: Deed,
    pub third: Deed,
    pub end: End,
}

impl Part {
    // The same, and then the turn fails.
    fn failing(self) -> Part {
        Part {
            first: self.first,
            second: self.second,
            third: self.third,
            end: End::Fault,
        }
    }
}

fn three(first: Deed, second: Deed, third: Deed) -> Part {
    Part {
        first,
        second,
        third,
        end: End::Fine,
    }
}

fn two(first: Deed, second: Deed) -> Part {
    three(first, second, Deed::Nothing)
}

fn one(deed: Deed) -> Part {
    two(deed, Deed::Nothing)
}

/// Nothing is done.
pub fn nothing() -> Part {
    one(Deed::Nothing)
}

fn starving() -> Part {
    Part {
        first: Deed::Nothing,
        second: Deed::Nothing,
        third: Deed::Nothing,
        end: End::Starved,
    }
}

impl Plan {
    /// What is done at the request that begins the application session.
    pub fn first(self) -> Part {
        match self {
            Plan::Faults => nothing().failing(),
            Plan::AnswersAndFaults => one(Deed::Answer(200)).failing(),
            Plan::FaultsLater | Plan::MovesExpiry | Plan::EndsSessionAndFaults => {
                one(Deed::Answer(180))
            }
            Plan::Starves => starving(),
            Plan::Rejects => one(Deed::Answer(486)),
            Plan::Notes => one(Deed::Note),
            Plan::TimesOnce => one(Deed::Start(Period::Once)),
            Plan::TimesByRate => one(Deed::Start(Period::Rate(500))),
            Plan::TimesByDelay => one(Deed::Start(Period::Delay(500))),
            Plan::EndsTimer => two(Deed::Answer(180), Deed::Start(Period::Rate(500))),
            _ => self.first_beyond(),
        }
    }

    // The same of the plans that proxy, make requests or end sessions.
    fn first_beyond(self) -> Part {
        match self {
            Plan::Proxies | Plan::CancelsAtResponse => one(Deed::Proxy(Proxying::InTurn)),
            Plan::ProxiesAndFaults => one(Deed::Proxy(Proxying::InTurn)).failing(),
            Plan::Forks => one(Deed::Proxy(Proxying::AtOnce)),
            Plan::CancelsAndAdds => three(
                Deed::Proxy(Proxying::ToFirst),
                Deed::CancelProxy,
                Deed::Proxy(Proxying::ToSecond),
            ),
            Plan::AddsTarget => one(Deed::Proxy(Proxying::ToFirst)),
            Plan::StaysUnready => two(Deed::Answer(200), Deed::Unready),
            Plan::KeepsSession => two(Deed::Answer(200), Deed::UnreadySession),
            Plan::Discards => two(Deed::DraftMessage, Deed::Discard),
            Plan::Forgets => one(Deed::DraftMessage),
            Plan::Links => three(Deed::DraftMessage, Deed::Send, Deed::Link),
            Plan::SendsAndCancels => three(Deed::DraftInvite, Deed::Send, Deed::Cancel),
            Plan::SendsAndEnds => three(Deed::DraftInvite, Deed::Send, Deed::End),
            Plan::Ends => one(Deed::End),
            Plan::AnswersAndEnds => two(Deed::Answer(200), Deed::End),
            _ => nothing(),
        }
    }

    /// What is done at a later request.
    pub fn later(self) -> Part {
        match self {
            Plan::FaultsLater => nothing().failing(),
            Plan::EndsTimer => one(Deed::EndTimer),
            Plan::MovesExpiry => one(Deed::MoveExpiry),
            Plan::EndsSessionAndFaults => one(Deed::EndSession).failing(),
            _ => nothing(),
        }
    }

    /// What is done at a response of this code.
    pub fn heard(self, code: u16) -> Part {
        match self {
            Plan::CancelsAtResponse => one(Deed::CancelProxy),
            Plan::AddsTarget if code >= 300 => one(Deed::Proxy(Proxying::ToSecond)),
            Plan::Links => one(Deed::Unlink),
            _ => nothing(),
        }
    }
}

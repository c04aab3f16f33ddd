ghost use Rattle.std.specs.Prelude.{◌≡◌, ◌<◌, ◌^◌, ℕ, List, Some};
ghost use Rattle.sc_value.specs.declared.ids.AppId.{AppId};
ghost use Rattle.sc_terms.specs.declared.steps.Step.{Step};
ghost use Rattle.sc_terms.specs.declared.settings.Config.{Config};
ghost use Rattle.sc_parts.specs.declared.setup.Setup.{Setup};
ghost use Rattle.sc_state.specs.declared.host.Live.{Live};
ghost use Rattle.sc_state.specs.declared.session.Session.{Session};
ghost use Rattle.sc_hosts.specs.Histories.{History, as_history, as_session, session_of};
ghost use Rattle.sc_hosts.specs.Offers.{early_script};
ghost use Rattle.sc_hosts.specs.Runs.{IsLawful, net_from};
ghost use Rattle.sc_hosts.specs.Steps.{live_at};
ghost use Rattle.sc_lived.specs.Lived.{HasLived, turns_in};
ghost use Rattle.sc_remembered.specs.Early.{MakesActs};
ghost use Rattle.sc_remembered.specs.Played.{ArePlayed};
ghost use Rattle.sc_early.specs.EarlyLives.{AreUnknown, AreWhole, HasActs, HasRoom, HasUnknown, IsEarly};

/// In every history of a session of the kind that gives provisional responses reliably nothing is
/// remembered of an INVITE that comes: no attribute stands for a number that wasn't drawn. Premised
/// are that the calls of each turn are those of the kind's script, or none where nobody is called,
/// and that numbers of requests have 64 bits. The contract is the law, and the call does nothing.
pub fn nothing_is_remembered_early()
    ensures { (config : Config) (history : History)
        → ArePlayed early_script config history history.turns
        → HasRoom (session_of config history) → AreUnknown config history history.turns }
{}

/// The turns of such a history make, of each INVITE, a list of acts of which each turn makes one at
/// most. Premised is, besides, that no offer is refused behind its response. The contract is the
/// law, and the call does nothing.
pub fn played_lives_make_acts()
    ensures { (config : Config) (history : History) (n : ℕ) → n < 2 ^ 64
        → HasRoom (session_of config history) → ArePlayed early_script config history history.turns
        → AreWhole config history history.turns → MakesActs config history n history.turns }
{}

/// After a lawful journal nothing is remembered of an INVITE that comes in a live session, of
/// whatever kind it is. The contract is the law, for each form in which sessions are kept, and the
/// call does nothing.
pub fn first_invites_are_unknown()
    ensures history { (setup : Setup) (epoch began : ℕ) (journal : List Step) (app : AppId)
        (live : Live History) → IsLawful (as_history setup.config) setup epoch began journal
        → live_at app (net_from (as_history setup.config) setup epoch began journal) ≡ Some live
        → AreUnknown setup.config live.session live.session.turns }
    ensures session { (setup : Setup) (epoch began : ℕ) (journal : List Step) (app : AppId)
        (live : Live Session) → IsLawful as_session setup epoch began journal
        → live_at app (net_from as_session setup epoch began journal) ≡ Some live
        → HasUnknown setup app (turns_in app journal) live.session live.inbox }
{}

/// After a lawful journal the turns of a live session of the kind that gives provisional responses
/// reliably, for whose own events nobody listens, made of each INVITE a list of acts of which each
/// begins with what the one before left, the first with nothing; and the offers in it that were
/// accepted have the RSeq numbers 1, 2, 3 and so on. Premised is only that numbers have 64 bits:
/// that of the INVITE, those of requests, and the CSeq number of the request that began the
/// session. The contract is the law, for each form in which sessions are kept, and the call does
/// nothing.
pub fn live_early_sessions_make_acts()
    ensures history { (setup : Setup) (epoch began : ℕ) (journal : List Step) (app : AppId)
        (live : Live History) (n : ℕ)
        → IsLawful (as_history setup.config) setup epoch began journal
        → live_at app (net_from (as_history setup.config) setup epoch began journal) ≡ Some live
        → IsEarly setup app → n < 2 ^ 64 → live.session.request.head.cseq.number < 2 ^ 64
        → HasRoom (session_of setup.config live.session)
        → ∥ HasActs setup.config live.session n ∥₁ }
    ensures session { (setup : Setup) (app : AppId) (journal : List Step) (live : Live Session)
        (n : ℕ) → (lived : HasLived setup app (turns_in app journal) live.session live.inbox)
        → IsEarly setup app → n < 2 ^ 64 → lived.history.request.head.cseq.number < 2 ^ 64
        → HasRoom live.session → ∥ HasActs setup.config lived.history n ∥₁ }
{}

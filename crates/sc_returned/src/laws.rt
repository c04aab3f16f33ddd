ghost use Rattle.std.specs.Prelude.{ℕ, List};
ghost use Rattle.sc_terms.specs.declared.steps.Step.{Step};
ghost use Rattle.sc_parts.specs.declared.setup.Setup.{Setup};
ghost use Rattle.sc_hosts.specs.Histories.{as_history, as_session};
ghost use Rattle.sc_hosts.specs.Runs.{IsLawful, net_from};
ghost use Rattle.sc_paths.specs.Moments.{moments};
ghost use Rattle.sc_paths.specs.Pieces.{Dialog, IsPiece, Piece};
ghost use Rattle.sc_ways.specs.Ways.{AreSmallNames};
ghost use Rattle.sc_returned.specs.Returned.{ReturnsRecordRoute};

/// Where an application session answers the INVITE at the end of its way through the container,
/// each of its responses that makes the dialog, a provisional one with a To tag too, has the
/// Record-Route of the INVITE as it came to that session (RFC 3261 section 12.1.1): the own URIs of
/// the proxies of the way that record-routed it, the last one's on top, above the Record-Route with
/// which it came to the first of them, or none where a session sent it first. So it is whether the
/// application gives the response or the container does, after every lawful journal in which the
/// numbers in names have 64 bits. The contract is the law, for a journal that is lawful in either
/// form in which sessions are kept, and the call does nothing.
pub fn answers_return_the_record_route()
    ensures session { (setup : Setup) (epoch began : ℕ) (journal : List Step) (dialog : Dialog)
        (piece : Piece) → IsLawful as_session setup epoch began journal
        → IsPiece setup epoch (moments setup epoch began journal) dialog piece
        → AreSmallNames setup epoch (net_from as_session setup epoch began journal) piece
        → ReturnsRecordRoute setup epoch (moments setup epoch began journal) dialog piece }
    ensures history { (setup : Setup) (epoch began : ℕ) (journal : List Step) (dialog : Dialog)
        (piece : Piece) → IsLawful (as_history setup.config) setup epoch began journal
        → IsPiece setup epoch (moments setup epoch began journal) dialog piece
        → AreSmallNames setup epoch (net_from as_session setup epoch began journal) piece
        → ReturnsRecordRoute setup epoch (moments setup epoch began journal) dialog piece }
{}

ghost use Rattle.std.specs.Prelude.{ℕ, List};
ghost use Rattle.sc_terms.specs.declared.steps.Step.{Step};
ghost use Rattle.sc_parts.specs.declared.setup.Setup.{Setup};
ghost use Rattle.sc_hosts.specs.Histories.{as_history, as_session};
ghost use Rattle.sc_hosts.specs.Runs.{IsLawful, net_from};
ghost use Rattle.sc_paths.specs.Moments.{moments};
ghost use Rattle.sc_paths.specs.Pieces.{Dialog, IsPiece, Piece};
ghost use Rattle.sc_ways.specs.Ways.{AreSmallNames};
ghost use Rattle.sc_recorded.specs.Recorded.{IsRecorded};

/// Where the way of an INVITE through the container ends, the INVITE has the Record-Route list with
/// which it came there, or none where a session sent it first, and in front of it the own URIs of
/// the proxies of the way that record-routed it, the last one's on top (RFC 3261 section 16.6, step
/// 4): so it has as it leaves the container, on each branch on which a response comes that makes
/// the dialog, and as it came to the session that answers it. It is so after every lawful journal
/// in which the numbers in names have 64 bits. A session record-routed the INVITE where the first
/// of its accepted calls that proxied asked for it, whatever later ones ask. The contract is the
/// law, for a journal that is lawful in either form in which sessions are kept, and the call does
/// nothing.
pub fn invites_record_their_way()
    ensures session { (setup : Setup) (epoch began : ℕ) (journal : List Step) (dialog : Dialog)
        (piece : Piece) → IsLawful as_session setup epoch began journal
        → IsPiece setup epoch (moments setup epoch began journal) dialog piece
        → AreSmallNames setup epoch (net_from as_session setup epoch began journal) piece
        → IsRecorded setup epoch (moments setup epoch began journal) dialog piece }
    ensures history { (setup : Setup) (epoch began : ℕ) (journal : List Step) (dialog : Dialog)
        (piece : Piece) → IsLawful (as_history setup.config) setup epoch began journal
        → IsPiece setup epoch (moments setup epoch began journal) dialog piece
        → AreSmallNames setup epoch (net_from as_session setup epoch began journal) piece
        → IsRecorded setup epoch (moments setup epoch began journal) dialog piece }
{}

ghost use Rattle.std.specs.Prelude.{◌≡◌, ℕ, List, true};
ghost use Rattle.sc_terms.specs.declared.steps.Step.{Step};
ghost use Rattle.sc_parts.specs.declared.setup.Setup.{Setup};
ghost use Rattle.sc_hosts.specs.Histories.{as_history, as_session};
ghost use Rattle.sc_hosts.specs.Runs.{IsLawful, net_from};
ghost use Rattle.sc_paths.specs.LaterRequests.{Occurrence, carries};
ghost use Rattle.sc_paths.specs.Moments.{moments};
ghost use Rattle.sc_paths.specs.Pieces.{Dialog, Direction, IsPiece, Piece};
ghost use Rattle.sc_ways.specs.Ways.{AreSmallDraws, AreSmallNames, IsApart};
ghost use Rattle.sc_journeys.specs.Journeys.{Ends};

/// A later request that keeps to the way of the INVITE of its dialog, whether it comes from outside
/// or a session sends it, visits all of the sessions that stayed on the way and are ahead of it; or
/// the first of them doesn't take it, since it doesn't live or is full; or it stops in one of them:
/// its turn doesn't come in the run, or in its turn there is one of the stops that `IsHalted` of
/// `sc_halted` lists, with its answer. Nothing else becomes of it (RFC 3261 sections 12.2.2 and
/// 16.12). The premises are those of `later_requests_keep_to_the_way` of `sc_ways`. The contract is
/// the law, for a journal that is lawful in either form in which sessions are kept, and the call
/// does nothing.
pub fn later_requests_go_all_the_way_or_stop()
    ensures session { (setup : Setup) (epoch began : ℕ) (journal : List Step) (dialog : Dialog)
        (direction : Direction) (piece : Piece) (occurrence : Occurrence)
        → IsLawful as_session setup epoch began journal
        → IsPiece setup epoch (moments setup epoch began journal) dialog piece
        → IsApart (moments setup epoch began journal) dialog piece
        → AreSmallNames setup epoch (net_from as_session setup epoch began journal) piece
        → AreSmallDraws setup (moments setup epoch began journal)
        → carries setup (moments setup epoch began journal) dialog direction piece occurrence ≡ true
        → Ends setup (moments setup epoch began journal) direction piece occurrence }
    ensures history { (setup : Setup) (epoch began : ℕ) (journal : List Step) (dialog : Dialog)
        (direction : Direction) (piece : Piece) (occurrence : Occurrence)
        → IsLawful (as_history setup.config) setup epoch began journal
        → IsPiece setup epoch (moments setup epoch began journal) dialog piece
        → IsApart (moments setup epoch began journal) dialog piece
        → AreSmallNames setup epoch (net_from as_session setup epoch began journal) piece
        → AreSmallDraws setup (moments setup epoch began journal)
        → carries setup (moments setup epoch began journal) dialog direction piece occurrence ≡ true
        → Ends setup (moments setup epoch began journal) direction piece occurrence }
{}

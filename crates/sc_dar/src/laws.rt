ghost use Rattle.std.specs.Prelude.{◌≡◌, ◌≤◌, List, Ok, length};
ghost use Rattle.sc_tokens.specs.Bytes.{Bytes};
ghost use Rattle.sc_dar.specs.Tables.{table_of};
ghost use Rattle.sc_dar.specs.WrittenTables.{dar_text};
ghost use Rattle.sc_dar.specs.Rules.{IsTable};

use sc_terms::Dar;

/// A table whose tuples name these applications, written in at most 65,536 bytes, is read as the
/// same table: what `write` puts out, `read` takes in. The contract is the law, and the call does
/// nothing.
#[tactic(auto, using(crate::proofs::WrittenTables::table_again))]
pub fn written_is_read(dar: &Dar)
    ensures { (apps : List Bytes) → IsTable apps dar.now → length (dar_text dar.now apps) ≤ 65536
        → table_of (dar_text dar.now apps) apps ≡ Ok dar.now }
{
    dar.known();
}

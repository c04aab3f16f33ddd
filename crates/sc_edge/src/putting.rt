ghost use Rattle.std.specs.Prelude.{◌≤◌, OnOk, OnErr};
ghost use Rattle.sc_edge.specs.Faults.{Rose};
ghost use Rattle.sc_edge.specs.Taking.{Takes, TakesPart};

use crate::{Failed, Sink};

/// Puts all bytes, in as many puts as it takes. After a failure the sink took a part from their
/// front, which may be none of them.
pub fn put_all<K: Sink>(out: &mut K, bytes: &[u8]) -> Result<(), Failed>
    ensures later { K.faults out.old ≤ K.faults out.new }
    ensures ok { OnOk result (Takes (K.took out.old) (K.took out.new) bytes.now) }
    ensures failed { OnErr result (Rose (K.faults out.old) (K.faults out.new)) }
    ensures cut { OnErr result (TakesPart (K.took out.old) (K.took out.new) bytes.now) }
{
    let mut rest = bytes;
    while !rest.is_empty() {
        let count = out.put(rest)?;
        rest = &rest[count..];
    }
    Ok(())
}

ghost use Rattle.std.specs.Prelude.{OnOk, OnErr};
ghost use Rattle.flash_names.specs.Faults.{Counts};
ghost use Rattle.flash_streams.specs.Writing.{IsWritten, IsBegun};

use flash_names::{Sink, SinkFault};

/// Writes all of these bytes, or a front part of them where a write fails.
pub fn write_all<K: Sink>(sink: &mut K, bytes: &[u8]) -> Result<(), SinkFault>
    ensures written { OnOk result (IsWritten bytes.now (K.held sink.old) (K.held sink.new)) }
    ensures begun { OnErr result (IsBegun bytes.now (K.held sink.old) (K.held sink.new)) }
    ensures counts { Counts (K.faults sink.old) (K.faults sink.new) result }
{
    let mut done = 0;
    'writes: while done < bytes.len() {
        match sink.write(&bytes[done..]) {
            Ok(n) => done += n,
            Err(SinkFault) => return Err(SinkFault),
        }
    }
    Ok(())
}

//! Text that is gathered before it is written.

ghost use Rattle.std.specs.Prelude.{[], ◌≡◌, ◌<◌, OnOk, OnErr};
ghost use Rattle.script_lines.specs.Streams.{Awaits, HasBegun};

use crate::streams::{Failed, Sink, write_all};

/// How many bytes are gathered before they are written.
pub const GATHERED: usize = 65536;

/// Writes what waits.
pub fn flush<W: Sink>(waiting: &mut Vec<u8>, writer: &mut W) -> Result<(), Failed>
    requires { W.can_write writer.old }
    ensures written { OnOk result (Awaits (W.written writer.old) (W.written writer.new) [] waiting.old.items) }
    ensures none { OnOk result (waiting.new.items ≡ []) }
    ensures counted { OnOk result (W.failures writer.new ≡ W.failures writer.old) }
    ensures ready { OnOk result (W.can_write writer.new) }
    ensures begun { OnErr result (HasBegun (W.written writer.old) (W.written writer.new) waiting.old.items) }
    ensures failed { OnErr result (W.failures writer.old < W.failures writer.new) }
{
    write_all(writer, waiting)?;
    waiting.clear();
    Ok(())
}

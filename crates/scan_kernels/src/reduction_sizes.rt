//! Whether a reduction goes by chunks, and of what size. The work are the items, however few results they come to.

ghost use Rattle.std.specs.Prelude.{◌<◌, IfSome};
ghost use Rattle.scan_kernels.specs.Metering.{HeedsChunk};

use crate::chunks::{chunk_size, joined_size, size_of_few};
use crate::execution::Execution;
use crate::meter::{DEFAULT_CHUNK, Meter};

/// From how many items on it repays to start threads that reduce: found by `bench chunks` on four processors, where they lost at
/// half as many.
const REDUCTIONS_PAY: usize = 1_000_000;

/// How many items a segment has at least on average, so that threads repay: a result that is nearly as long as the items takes
/// as many fresh pages, and of segments of one item threads took 1.2 to 1.7 times as long as one.
const ITEMS_PAY: usize = 8;

/// The number of segments in a chunk of a segmented reduction, if it goes by chunks. A size that a caller made smaller than
/// `DEFAULT_CHUNK` is heeded always, as a number of segments. Else there are no more chunks than processors, and there are
/// chunks only where they pay: also into fresh memory, of which a reduction of segments that are not short takes little.
#[inline(always)]
pub fn segments_size(
    execution: &impl Execution,
    meter: &Meter,
    segments: usize,
    items: usize,
) -> Option<usize>
    ensures { IfSome result (λ size. 0 < size) }
{
    let chunk = meter.chunk();
    if chunk < DEFAULT_CHUNK {
        return heeded_size(chunk, segments);
    }
    if segments < 2 || items < REDUCTIONS_PAY || items / segments < ITEMS_PAY {
        return None;
    }
    let chunks = execution.processors().min(items / chunk);
    if chunks < 2 {
        return None;
    }
    Some(segments.div_ceil(chunks).max(1))
}

// The size that a caller chose, where there is more than one chunk.
fn heeded_size(chunk: usize, segments: usize) -> Option<usize>
    requires { 0 < chunk }
    ensures { IfSome result (λ size. 0 < size) }
{
    if segments <= chunk {
        return None;
    }
    Some(size_of_few(segments, chunk))
}

/// The size of the chunks of a reduction of so many items, if it goes by chunks.
#[inline(always)]
pub(crate) fn items_size(execution: &impl Execution, meter: &Meter, count: usize) -> Option<usize>
    ensures size { IfSome result (λ size. 0 < size) }
    ensures heeded { HeedsChunk meter.now count result }
{
    chunk_size(execution, meter, count, count >= REDUCTIONS_PAY)
}

/// How many parts make a chunk of a reduction of each part, where they have so many items together, if it goes by chunks.
pub(crate) fn parts_size(
    execution: &impl Execution,
    meter: &Meter,
    parts: usize,
    items: usize,
) -> Option<usize>
    ensures size { IfSome result (λ size. 0 < size) }
    ensures heeded { HeedsChunk meter.now items result }
{
    joined_size(execution, meter, parts, items, items >= REDUCTIONS_PAY)
}

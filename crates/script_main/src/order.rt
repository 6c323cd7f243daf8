//! The names of a memory in the order of their bytes.

ghost use Rattle.std.specs.Prelude.{◌≡◌, IfOk, map};
ghost use Rattle.std.specs.List.{IsDistinct};
ghost use Rattle.std.specs.Map.{keys_of};
ghost use Rattle.vector_memory.specs.Names.{same_name};
ghost use Rattle.call_history.specs.Shown.{shown};
ghost use Rattle.script_main.specs.Reports.{in_order};

use segment_desc::OutOfMemory;
use std::alloc::Global;
use vector_memory::{Memory, Name, Value};

/// The names with their values, in the order in which they came.
fn listed(alloc: Global, memory: &Memory) -> Result<Vec<(&Name, &Value)>, OutOfMemory>
    ensures entries { IfOk result (λ entries. map shown entries.items ≡ memory.now.entries) }
    ensures distinct { IsDistinct same_name (keys_of memory.now.entries) }
{
    let mut entries = Vec::new(alloc);
    for entry in memory.iter() {
        let Ok(()) = entries.push(entry) else {
            return Err(OutOfMemory);
        };
    }
    Ok(entries)
}

/// The names with their values, in the order of their bytes: the shorter first where one begins the other.
pub(crate) fn in_order(alloc: Global, memory: &Memory) -> Result<Vec<(&Name, &Value)>, OutOfMemory>
    ensures { IfOk result (λ entries. map shown entries.items ≡ in_order memory.now.entries) }
{
    let mut entries = listed(alloc, memory)?;
    entries.sort_unstable_by(|one, other| one.0.text().bytes().cmp(other.0.text().bytes()));
    Ok(entries)
}

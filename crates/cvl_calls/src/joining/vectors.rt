//! One kernel run over the joined operands of calls, of which each stores a vector.

ghost use Rattle.std.specs.Prelude.{◌≡◌, ℕ, Err, Ok, Some, map, slice_get, All, IfErr, OnOk};
ghost use Rattle.cvl_text.specs.declared.fault.Fault.{Fault};
ghost use Rattle.scan_kernels.specs.Metering.{CountsRun};
ghost use Rattle.cvl_calls.specs.Fewness.{FewFit};
ghost use Rattle.cvl_calls.specs.Joined.{effects_of};
ghost use Rattle.cvl_calls.specs.Outcomes.{Stores};
ghost use Rattle.vector_memory.specs.Contents.{Bools, Ints};

use crate::joining::few::{Few, are_few};
use crate::joining::group::Group;
use crate::joining::parts::{Joins, part_at, parts_of, put_others};
use crate::made::Made;
use crate::shelves::Shelves;
use crate::stop::Stop;
use scan_kernels::{BoolKernel, Execution, IntKernel, Meter, run_joined_bools, run_joined_ints};
use std::alloc::Global;

/// What a kernel makes of these operands, each by itself, by one run. The results take vectors that were kept.
#[inline(always)]
fn int_vectors<'a, P, K: IntKernel<'a, P>>(
    execution: &impl Execution,
    alloc: Global,
    meter: &mut Meter,
    shelves: &mut Shelves,
    kernel: K,
    parts: &[P],
    made: &mut Made,
) -> Result<(), Stop>
    requires { All (K.Takes kernel) parts.now }
    ensures makes { OnOk result (effects_of made.new ≡ map (λ part. Stores (Ints (K.makes kernel part))) parts.now) }
    ensures memory { IfErr result (λ stop. stop ≡ Stop.OutOfMemory) }
    ensures counted { CountsRun result meter.old meter.new }
{
    let mut shelf = shelves.take_ints(alloc)?;
    let vectors = run_joined_ints(execution, &mut shelf, meter, kernel, parts);
    shelves.put_ints(shelf);
    *made = Made::Ints(vectors?);
    Ok(())
}

/// One kernel run over the joined operands of calls of this word, which store integers.
#[inline(never)]
pub(crate) fn ints<'a, P: Copy, K: Joins<'a, P, i64> + IntKernel<'a, P>, G: Group>(
    execution: &impl Execution,
    alloc: Global,
    meter: &mut Meter,
    shelves: &mut Shelves,
    kernel: K,
    group: &'a G,
    made: &mut Made,
) -> Result<(), Stop>
    requires memory { FewFit P.row }
    requires alike { G.IsAlike group.now }
    requires word { G.word group.now ≡ K.word kernel }
    ensures makes { OnOk result (map (λ effect. Ok effect) (effects_of made.new) ≡ G.works group.now) }
    ensures fault { (fault : Fault) → result ≡ Err (Stop.Fault fault) → (place : ℕ) × (slice_get (G.works group.now) place ≡ Some (Err fault)) }
    ensures counted { CountsRun result meter.old meter.new }
{
    if are_few(group.count()) {
        let mut parts = Few::of(part_at(execution, alloc, meter, kernel, group, 0)?);
        put_others(execution, alloc, meter, kernel, group, &mut parts)?;
        let few = parts.as_slice();
        return int_vectors(execution, alloc, meter, shelves, kernel, few, made);
    }
    let parts = parts_of(execution, alloc, meter, kernel, group)?;
    int_vectors(execution, alloc, meter, shelves, kernel, &parts, made)
}

/// What a kernel makes of these operands, each by itself, by one run. The results take vectors that were kept.
#[inline(always)]
fn bool_vectors<'a, P, K: BoolKernel<'a, P>>(
    execution: &impl Execution,
    alloc: Global,
    meter: &mut Meter,
    shelves: &mut Shelves,
    kernel: K,
    parts: &[P],
    made: &mut Made,
) -> Result<(), Stop>
    requires { All (K.Takes kernel) parts.now }
    ensures makes { OnOk result (effects_of made.new ≡ map (λ part. Stores (Bools (K.makes kernel part))) parts.now) }
    ensures memory { IfErr result (λ stop. stop ≡ Stop.OutOfMemory) }
    ensures counted { CountsRun result meter.old meter.new }
{
    let mut shelf = shelves.take_bools(alloc)?;
    let vectors = run_joined_bools(execution, &mut shelf, meter, kernel, parts);
    shelves.put_bools(shelf);
    *made = Made::Bools(vectors?);
    Ok(())
}

/// One kernel run over the joined operands of calls of this word, which store truth values.
#[inline(never)]
pub(crate) fn bools<'a, P: Copy, K: Joins<'a, P, bool> + BoolKernel<'a, P>, G: Group>(
    execution: &impl Execution,
    alloc: Global,
    meter: &mut Meter,
    shelves: &mut Shelves,
    kernel: K,
    group: &'a G,
    made: &mut Made,
) -> Result<(), Stop>
    requires memory { FewFit P.row }
    requires alike { G.IsAlike group.now }
    requires word { G.word group.now ≡ K.word kernel }
    ensures makes { OnOk result (map (λ effect. Ok effect) (effects_of made.new) ≡ G.works group.now) }
    ensures fault { (fault : Fault) → result ≡ Err (Stop.Fault fault) → (place : ℕ) × (slice_get (G.works group.now) place ≡ Some (Err fault)) }
    ensures counted { CountsRun result meter.old meter.new }
{
    if are_few(group.count()) {
        let mut parts = Few::of(part_at(execution, alloc, meter, kernel, group, 0)?);
        put_others(execution, alloc, meter, kernel, group, &mut parts)?;
        let few = parts.as_slice();
        return bool_vectors(execution, alloc, meter, shelves, kernel, few, made);
    }
    let parts = parts_of(execution, alloc, meter, kernel, group)?;
    bool_vectors(execution, alloc, meter, shelves, kernel, &parts, made)
}

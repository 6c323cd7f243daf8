//! A kernel on operands that lie in parts: in one thread, and by chunks of several sizes, in threads and in the calling thread.

ghost use Rattle.std.specs.Prelude.{All};

use scan_kernels::{
    BoolKernel, Execution, IntKernel, Meter, Sequential, Shelf, run_joined, run_joined_bools,
    run_joined_ints,
};
use std::alloc::Global;
use std::process::Abort;
use std::thread::Threads;

/// Whether the results of the parts are these.
pub(crate) fn are_parts<T: PartialEq>(made: &[Vec<T>], wanted: &[&[T]]) -> bool {
    made.len() == wanted.len() && made.iter().zip(wanted).all(|(v, w)| v.as_slice() == *w)
}

/// Whether the kernel gives these integers of the parts, each time in one run: in one thread, and by chunks of several sizes, in threads
/// and in the calling thread.
pub(crate) fn gives_ints<
    'a,
    P,
    K: IntKernel<'a, P>,
    R: Abort + Threads + Execution<Shared = R> + Sync,
>(rt: &R, alloc: Global, kernel: K, parts: &[P], wanted: &[&[i64]]) -> bool
    requires { All (K.Takes kernel) parts.now }
{
    for chunk in [1, 2, 7] {
        let (mut meter, mut shelf) = (Meter::with_chunk(chunk), Shelf::new(alloc));
        let made = run_joined_ints(rt, &mut shelf, &mut meter, kernel, parts).expect(rt, "memory");
        let alone = run_joined_ints(&Sequential, &mut shelf, &mut meter, kernel, parts);
        if meter.runs() != 2
            || !are_parts(&made, wanted)
            || !are_parts(&alone.expect(rt, "memory"), wanted)
        {
            return false;
        }
    }
    let mut meter = Meter::new();
    let made = run_joined(rt, alloc, &mut meter, kernel, parts).expect(rt, "memory");
    are_parts(&made, wanted) && meter.runs() == 1
}

/// Whether the kernel gives these truth values of the parts, each time in one run: in one thread, and by chunks of several sizes, in threads
/// and in the calling thread.
pub(crate) fn gives_bools<
    'a,
    P,
    K: BoolKernel<'a, P>,
    R: Abort + Threads + Execution<Shared = R> + Sync,
>(rt: &R, alloc: Global, kernel: K, parts: &[P], wanted: &[&[bool]]) -> bool
    requires { All (K.Takes kernel) parts.now }
{
    for chunk in [1, 2, 7] {
        let (mut meter, mut shelf) = (Meter::with_chunk(chunk), Shelf::new(alloc));
        let made = run_joined_bools(rt, &mut shelf, &mut meter, kernel, parts).expect(rt, "memory");
        let alone = run_joined_bools(&Sequential, &mut shelf, &mut meter, kernel, parts);
        if meter.runs() != 2
            || !are_parts(&made, wanted)
            || !are_parts(&alone.expect(rt, "memory"), wanted)
        {
            return false;
        }
    }
    let mut meter = Meter::new();
    let made = run_joined(rt, alloc, &mut meter, kernel, parts).expect(rt, "memory");
    are_parts(&made, wanted) && meter.runs() == 1
}

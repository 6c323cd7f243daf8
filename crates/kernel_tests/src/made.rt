//! What kernels made, for the tests.

use segment_desc::OutOfMemory;

/// Whether a kernel was granted memory and made these items.
pub(crate) fn is_made<T: Copy + PartialEq>(
    made: Result<Vec<T>, OutOfMemory>,
    wanted: &[T],
) -> bool {
    match made {
        Ok(made) => made.as_slice() == wanted,
        Err(OutOfMemory) => false,
    }
}

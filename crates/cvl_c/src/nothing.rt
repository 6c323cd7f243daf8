use std::ptr;

/// A pointer to nothing.
pub(crate) fn nothing() -> *mut u8 {
    ptr::null_mut()
}

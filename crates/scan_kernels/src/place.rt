//! The place that an index holds.

ghost use Rattle.std.specs.Prelude.{◌≡◌, ◌↔◌, ◌≤ℤ◌, pos, All, IsTrue};
ghost use Rattle.scan_kernels.specs.Indices.{IsPlaceOf};

/// Whether a list of so many items has the place.
pub fn is_place(index: i64, length: usize) -> bool
    ensures { IsTrue result ↔ IsPlaceOf length index }
{
    0 <= index && index.unsigned_abs() < length as u64
}

/// The place as a number, where the index is not below 0.
#[inline(always)]
pub fn place_of(index: i64) -> usize
    requires { pos 0 ≤ℤ index }
    ensures { pos result ≡ index }
{
    index as usize
}

/// Whether each index is a place of a list of so many items, as `gather_z` and `gather_b` ask. It takes no memory.
pub fn are_places(index: &[i64], length: usize) -> bool
    ensures { IsTrue result ↔ All (IsPlaceOf length) index.now }
{
    let mut each = true;
    for held in index {
        each &= is_place(*held, length);
    }
    each
}

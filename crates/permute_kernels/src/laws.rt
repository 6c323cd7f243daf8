//! Laws of the definitions that the contracts cite: each function does nothing, and its contract is the law.

ghost use Rattle.std.specs.Prelude.{◌≡◌, ◌↔◌, ℕ, ℤ, pos, Bool, List, length, All, Some};
ghost use Rattle.std.specs.List.{slice_get};
ghost use Rattle.scan_kernels.specs.Gathered.{gathered};
ghost use Rattle.scan_kernels.specs.Indices.{HoldsEachPlaceOnce, IsPlaceOf};
ghost use Rattle.scan_kernels.specs.Packed.{number_set, packed};
ghost use Rattle.scan_kernels.specs.Permuted.{IsPermuted, permuted};

/// An index that holds each place once moves the items in exactly one way, and permute and back permute by it undo one
/// another.
pub fn permutes_and_back<T>()
    ensures alone { (index : List ℤ) (xs ys : List T) → HoldsEachPlaceOnce index → length index ≡ length xs → IsPermuted index xs ys ↔ (ys ≡ permuted index xs) }
    ensures back { (index : List ℤ) (xs : List T) → HoldsEachPlaceOnce index → length index ≡ length xs → gathered index (permuted index xs) ≡ xs }
    ensures forth { (index : List ℤ) (xs : List T) → HoldsEachPlaceOnce index → length index ≡ length xs → permuted index (gathered index xs) ≡ xs }
{}

/// A gather by places of the items, which a back permute is in each segment, has an item for each index: the one at its
/// place.
pub fn gathers_each_place<T>()
    ensures many { (index : List ℤ) (xs : List T) → All (IsPlaceOf (length xs)) index → length (gathered index xs) ≡ length index }
    ensures items { (index : List ℤ) (xs : List T) → All (IsPlaceOf (length xs)) index → (i p : ℕ) → slice_get index i ≡ Some (pos p) → slice_get (gathered index xs) i ≡ slice_get xs p }
{}

/// A pack has as many items as flags are set.
pub fn packs_what_is_set<T>()
    ensures { (flags : List Bool) (xs : List T) → length flags ≡ length xs → length (packed flags xs) ≡ number_set flags }
{}

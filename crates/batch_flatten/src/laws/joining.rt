//! Laws of joining: what a kernel gives on joined operands is what it gives on each part, joined (Blelloch, Vector Models for
//! Data-Parallel Computing, 1990). The parts are of any type, and functions of a part give its operands. A part that has no
//! segment list is one segment of the joined operands.

ghost use Rattle.std.specs.Prelude.{◌≡◌, ℕ, ℤ, Bool, List, length, map, replicate, sum, All};
ghost use Rattle.std.specs.List.{flat_map};
ghost use Rattle.segment_desc.specs.Cut.{joined};
ghost use Rattle.scan_kernels.specs.Distributed.{distributed};
ghost use Rattle.scan_kernels.specs.Elementwise.{item_by_item, selected};
ghost use Rattle.scan_kernels.specs.Indexed.{indexed, segmented_index};
ghost use Rattle.scan_kernels.specs.Segmented.{reduced, scanned, segmented_reduce, segmented_scan};
ghost use Rattle.scan_kernels.specs.Gathered.{gathered, segmented_gather};
ghost use Rattle.scan_kernels.specs.Packed.{numbers_set, packed};
ghost use Rattle.scan_kernels.specs.Permuted.{permuted, segmented_permute};

/// The map of one operand, by any function of an item.
pub fn maps_join<P, T, U>()
    ensures { (f : T → U) (items : P → List T) (parts : List P)
        → map f (flat_map items parts) ≡ joined (map (λ p. map f (items p)) parts) }
{}

/// The map of two operands of the same length, item by item, by any function of two items.
pub fn paired_maps_join<P, T, U, V>()
    ensures { (f : T → U → V) (first : P → List T) (second : P → List U) (parts : List P)
        → All (λ p. length (first p) ≡ length (second p)) parts
        → item_by_item f (flat_map first parts) (flat_map second parts)
        ≡ joined (map (λ p. item_by_item f (first p) (second p)) parts) }
{}

/// The choice between two vectors by as many flags.
pub fn selects_join<P, T>()
    ensures { (flags : P → List Bool) (first second : P → List T) (parts : List P)
        → All (λ p. (length (flags p) ≡ length (first p)) × (length (flags p) ≡ length (second p))) parts
        → selected (flat_map flags parts) (flat_map first parts) (flat_map second parts)
        ≡ joined (map (λ p. selected (flags p) (first p) (second p)) parts) }
{}

/// The scan of each segment, by any operation from any unit. The segments of a part have all its items.
pub fn scans_join<P, T>()
    ensures { (op : T → T → T) (unit : T) (lengths : P → List ℕ) (items : P → List T) (parts : List P)
        → All (λ p. sum (lengths p) ≡ length (items p)) parts
        → segmented_scan op unit (flat_map lengths parts) (flat_map items parts)
        ≡ joined (map (λ p. segmented_scan op unit (lengths p) (items p)) parts) }
{}

/// The reduction of each segment, by any operation from any unit. The segments of a part have all its items.
pub fn reductions_join<P, T>()
    ensures { (op : T → T → T) (unit : T) (lengths : P → List ℕ) (items : P → List T) (parts : List P)
        → All (λ p. sum (lengths p) ≡ length (items p)) parts
        → segmented_reduce op unit (flat_map lengths parts) (flat_map items parts)
        ≡ joined (map (λ p. segmented_reduce op unit (lengths p) (items p)) parts) }
{}

/// The scan of all items of a part, by any operation from any unit.
pub fn whole_scans_join<P, T>()
    ensures { (op : T → T → T) (unit : T) (items : P → List T) (parts : List P)
        → segmented_scan op unit (map (λ p. length (items p)) parts) (flat_map items parts)
        ≡ joined (map (λ p. scanned op unit (items p)) parts) }
{}

/// The reduction of all items of a part, by any operation from any unit: an item for each part.
pub fn whole_reductions_join<P, T>()
    ensures { (op : T → T → T) (unit : T) (items : P → List T) (parts : List P)
        → segmented_reduce op unit (map (λ p. length (items p)) parts) (flat_map items parts)
        ≡ map (λ p. reduced op unit (items p)) parts }
{}

/// Each value as often as its segment is long. A part has a value for each segment.
pub fn distributions_join<P, T>()
    ensures { (lengths : P → List ℕ) (values : P → List T) (parts : List P)
        → All (λ p. length (lengths p) ≡ length (values p)) parts
        → distributed (flat_map lengths parts) (flat_map values parts)
        ≡ joined (map (λ p. distributed (lengths p) (values p)) parts) }
{}

/// An item so many times: joined, the numbers are the lengths of segments.
pub fn repeats_join<P, T>()
    ensures { (number : P → ℕ) (value : P → T) (parts : List P)
        → distributed (map number parts) (map value parts)
        ≡ joined (map (λ p. replicate (number p) (value p)) parts) }
{}

/// Integers that rise by a stride from the start of each segment. A part has a start and a stride for each segment.
pub fn indices_join<P>()
    ensures { (lengths : P → List ℕ) (starts strides : P → List ℤ) (parts : List P)
        → All (λ p. (length (lengths p) ≡ length (starts p)) × (length (lengths p) ≡ length (strides p))) parts
        → segmented_index (flat_map lengths parts) (flat_map starts parts) (flat_map strides parts)
        ≡ joined (map (λ p. segmented_index (lengths p) (starts p) (strides p)) parts) }
{}

/// So many integers from a start on by a stride: joined, the numbers are the lengths of segments.
pub fn whole_indices_join<P>()
    ensures { (number : P → ℕ) (start stride : P → ℤ) (parts : List P)
        → segmented_index (map number parts) (map start parts) (map stride parts)
        ≡ joined (map (λ p. indexed (start p) (stride p) (number p)) parts) }
{}

/// Items moved by an index, segment by segment. The segments of a part have all its items, and it has an index for each.
pub fn permutes_join<P, T>()
    ensures { (items : P → List T) (index : P → List ℤ) (lengths : P → List ℕ) (parts : List P)
        → All (λ p. (length (index p) ≡ length (items p)) × (sum (lengths p) ≡ length (index p))) parts
        → segmented_permute (flat_map lengths parts) (flat_map index parts) (flat_map items parts)
        ≡ joined (map (λ p. segmented_permute (lengths p) (index p) (items p)) parts) }
{}

/// All items of a part moved by its index, which is as long.
pub fn whole_permutes_join<P, T>()
    ensures { (items : P → List T) (index : P → List ℤ) (parts : List P)
        → All (λ p. length (index p) ≡ length (items p)) parts
        → segmented_permute (map (λ p. length (items p)) parts) (flat_map index parts) (flat_map items parts)
        ≡ joined (map (λ p. permuted (index p) (items p)) parts) }
{}

/// Items read by an index, segment by segment: `source` has the lengths of the segments of the items, and `by` those of the
/// segments of the index, which are as many. The segments of a part have all its items, and all its index.
pub fn back_permutes_join<P, T>()
    ensures { (items : P → List T) (source : P → List ℕ) (index : P → List ℤ) (by : P → List ℕ) (parts : List P)
        → All (λ p. (sum (source p) ≡ length (items p)) × (sum (by p) ≡ length (index p)) × (length (source p) ≡ length (by p))) parts
        → segmented_gather (flat_map source parts) (flat_map items parts) (flat_map by parts) (flat_map index parts)
        ≡ joined (map (λ p. segmented_gather (source p) (items p) (by p) (index p)) parts) }
{}

/// Items of a part read by its index, of any length.
pub fn gathers_join<P, T>()
    ensures { (items : P → List T) (index : P → List ℤ) (parts : List P)
        → segmented_gather (map (λ p. length (items p)) parts) (flat_map items parts) (map (λ p. length (index p)) parts) (flat_map index parts)
        ≡ joined (map (λ p. gathered (index p) (items p)) parts) }
{}

/// Items kept by a flag. A part has a flag for each item.
pub fn packs_join<P, T>()
    ensures { (items : P → List T) (flags : P → List Bool) (parts : List P)
        → All (λ p. length (flags p) ≡ length (items p)) parts
        → packed (flat_map flags parts) (flat_map items parts)
        ≡ joined (map (λ p. packed (flags p) (items p)) parts) }
{}

/// How many flags each segment has set. The segments of a part have all its flags.
pub fn packed_lengths_join<P>()
    ensures { (flags : P → List Bool) (lengths : P → List ℕ) (parts : List P)
        → All (λ p. sum (lengths p) ≡ length (flags p)) parts
        → numbers_set (flat_map lengths parts) (flat_map flags parts)
        ≡ joined (map (λ p. numbers_set (lengths p) (flags p)) parts) }
{}

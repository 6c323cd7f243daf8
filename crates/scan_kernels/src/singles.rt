//! Segments of one item each, of which kernels take many at a time.

ghost use Rattle.std.specs.Prelude.{◌↔◌, ◌≡◌, All, IsTrue};

/// How many segments are looked at together.
pub const BLOCK: usize = 64;

/// Whether each segment has one item.
#[inline(always)]
pub fn are_single(lengths: &[usize]) -> bool
    ensures { IsTrue result ↔ All (λ l. l ≡ 1) lengths.now }
{
    let mut others = 0;
    for length in lengths {
        others |= *length ^ 1;
    }
    others == 0
}

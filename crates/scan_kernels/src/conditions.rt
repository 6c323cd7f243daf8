//! Tests of second operands, for a caller to make once before a kernel runs. They take no memory.

ghost use Rattle.std.specs.Prelude.{◌↔◌, All, IsTrue};
ghost use Rattle.item_operations.specs.IntegerOps.{IsDivisor, IsShift};

/// Whether `Z2::Div` and `Z2::Mod` take each of the integers: none is 0.
pub fn divisors_ok(divisors: &[i64]) -> bool
    ensures { IsTrue result ↔ All IsDivisor divisors.now }
{
    let mut each = true;
    for divisor in divisors {
        each &= is_divisor(*divisor);
    }
    each
}

/// Whether `Z2::Lsh` and `Z2::Rsh` take each of the integers: each is 0 to 63.
pub fn shifts_ok(counts: &[i64]) -> bool
    ensures { IsTrue result ↔ All IsShift counts.now }
{
    let mut each = true;
    for count in counts {
        each &= is_shift(*count);
    }
    each
}

fn is_divisor(y: i64) -> bool
    ensures { IsTrue result ↔ IsDivisor y }
{
    y != 0
}

fn is_shift(y: i64) -> bool
    ensures { IsTrue result ↔ IsShift y }
{
    0 <= y && y < 64
}

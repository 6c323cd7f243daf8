//! The values that a call names, or the fault where there is none or one of another type.

ghost use Rattle.std.specs.Prelude.{◌≡◌, ◌≤◌, ◌<◌, ◌^◌, length, nat_le, IfOk};
ghost use Rattle.segment_desc.specs.Lengths.{IsWithin};
ghost use Rattle.vector_memory.specs.Contents.{content_of, size_of};
ghost use Rattle.vector_memory.specs.States.{FitsLimits, value_at};
ghost use Rattle.cvl_calls.specs.Outcomes.{Held, NumberGiven, check, viewed};
ghost use Rattle.cvl_calls.specs.Operands.{any_value, bools, count, ints, items, segs};
ghost use Rattle.cvl_calls.specs.Views.{kind_of, vector_of};

use cvl_text::{Fault, Kind};
use segment_desc::Segd;
use vector_memory::{Memory, Name, Value};

/// The items of a vector of either type, as they lie in the memory.
#[derive(Clone, Copy)]
pub enum Vector<'a> {
    Ints(&'a [i64]),
    Bools(&'a [bool]),
}

impl Vector<'_> {
    /// How many there are.
    pub(crate) fn len(self) -> usize
        ensures { result ≡ size_of (vector_of self.entry) }
    {
        match self {
            Vector::Ints(xs) => xs.len(),
            Vector::Bools(xs) => xs.len(),
        }
    }
}

/// The value of a name, of any type.
pub(crate) fn any_value<'a>(memory: &'a Memory, a: &Name) -> Result<&'a Value, Fault>
    ensures value { viewed (λ v. content_of v.now) result ≡ any_value (Held (value_at memory.now a.now)) }
    ensures fits { IfOk result (λ v. FitsLimits memory.now.limit (content_of v.now)) }
{
    memory.get(a).ok_or(Fault::NoVector)
}

/// The integers of a name.
pub(crate) fn ints<'a>(memory: &'a Memory, a: &Name) -> Result<&'a [i64], Fault>
    ensures items { viewed (λ xs. xs.now) result ≡ ints (Held (value_at memory.now a.now)) }
    ensures short { IfOk result (λ xs. length xs.now ≤ memory.now.limit) }
{
    match any_value(memory, a)? {
        Value::Ints(items) => Ok(items.as_slice()),
        Value::Bools(_) => Err(Fault::WrongType),
        Value::Segs(_) => Err(Fault::WrongType),
    }
}

/// The truth values of a name.
pub(crate) fn bools<'a>(memory: &'a Memory, a: &Name) -> Result<&'a [bool], Fault>
    ensures items { viewed (λ xs. xs.now) result ≡ bools (Held (value_at memory.now a.now)) }
{
    match any_value(memory, a)? {
        Value::Ints(_) => Err(Fault::WrongType),
        Value::Bools(items) => Ok(items.as_slice()),
        Value::Segs(_) => Err(Fault::WrongType),
    }
}

/// The segment list of a name.
pub(crate) fn segs<'a>(memory: &'a Memory, s: &Name) -> Result<&'a Segd, Fault>
    ensures { viewed (λ ls. ls.now) result ≡ segs (Held (value_at memory.now s.now)) }
{
    match any_value(memory, s)? {
        Value::Ints(_) => Err(Fault::WrongType),
        Value::Bools(_) => Err(Fault::WrongType),
        Value::Segs(segments) => Ok(segments),
    }
}

/// The items of a name, which are of this type.
pub(crate) fn items<'a>(memory: &'a Memory, kind: Kind, a: &Name) -> Result<Vector<'a>, Fault>
    ensures items { viewed vector_of result ≡ items kind (Held (value_at memory.now a.now)) }
    ensures kind { IfOk result (λ items. kind_of items ≡ kind) }
{
    match kind {
        Kind::Z => Ok(Vector::Ints(ints(memory, a)?)),
        Kind::B => Ok(Vector::Bools(bools(memory, a)?)),
    }
}

/// A value has no more items than the limit.
pub(crate) fn check_length(limit: usize, len: usize) -> Result<(), Fault>
    ensures { result ≡ check (nat_le len limit) Fault.TooLong }
{
    if len <= limit {
        Ok(())
    } else {
        Err(Fault::TooLong)
    }
}

/// The number of items that a number asks for.
pub(crate) fn count(limit: usize, n: i64) -> Result<usize, Fault>
    ensures items { viewed (λ k. k) result ≡ count limit (NumberGiven n) }
    ensures within { IfOk result (λ k. k ≤ limit) }
{
    if n < 0 {
        return Err(Fault::WrongLength);
    }
    let count = n as usize;
    check_length(limit, count)?;
    Ok(count)
}

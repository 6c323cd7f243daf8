//! Elementwise calls.

ghost use Rattle.cvl_text.specs.declared.word.Kind.TheVariants as kinds;
ghost use Rattle.cvl_text.specs.declared.word.OneWord.TheVariants as ones;
ghost use Rattle.cvl_text.specs.declared.word.ThreeWord.TheVariants as threes;
ghost use Rattle.cvl_text.specs.declared.word.TwoWord.TheVariants as twos;
ghost use Rattle.cvl_text.specs.declared.word.Word.TheVariants as words;

use crate::joining::parts::{Joins, Judge};
use crate::judged::Judged;
use crate::shapes::elementwise::{
    alter_bools, alter_ints, compare, map_bools, map_ints, numbers_of, select_bools, select_ints,
    truths_of,
};
use crate::stop::Stop;
use cvl_text::{B1, B2, Call, Cmp, Kind, Z1, Z2};
use scan_kernels::Execution;
use scan_kernels::joined::{Number, Select, Truth};

// `OP_wuz` of one vector.
impl<'a> Joins<'a, &'a [i64], i64> for Z1 {
    ghost word = { λ op. words.One (ones.MapZ1 op) };

    #[inline(always)]
    fn judged<E: Execution>(
        self,
        judge: &Judge<'_, 'a, E>,
        call: &'a Call,
    ) -> Result<Judged<'a>, Stop> {
        match call {
            Call::MapZ1 { op, a, .. } => alter_ints(judge.memory, *op, a),
            _ => unreachable!(),
        }
    }

    #[inline(always)]
    fn part(self, judged: &Judged<'a>) -> &'a [i64] {
        match judged {
            Judged::AlterInts(_, xs) => *xs,
            _ => unreachable!(),
        }
    }
}

// `OP_wub` of one vector.
impl<'a> Joins<'a, &'a [bool], bool> for B1 {
    ghost word = { λ op. words.One (ones.MapB1 op) };

    #[inline(always)]
    fn judged<E: Execution>(
        self,
        judge: &Judge<'_, 'a, E>,
        call: &'a Call,
    ) -> Result<Judged<'a>, Stop> {
        match call {
            Call::MapB1 { op, a, .. } => alter_bools(judge.memory, *op, a),
            _ => unreachable!(),
        }
    }

    #[inline(always)]
    fn part(self, judged: &Judged<'a>) -> &'a [bool] {
        match judged {
            Judged::AlterBools(_, xs) => *xs,
            _ => unreachable!(),
        }
    }
}

// `boo_wuz`.
impl<'a> Joins<'a, &'a [i64], bool> for Truth {
    ghost word = { λ kernel. words.One ones.Boo };

    #[inline(always)]
    fn judged<E: Execution>(
        self,
        judge: &Judge<'_, 'a, E>,
        call: &'a Call,
    ) -> Result<Judged<'a>, Stop> {
        match call {
            Call::Boo { a, .. } => truths_of(judge.memory, a),
            _ => unreachable!(),
        }
    }

    #[inline(always)]
    fn part(self, judged: &Judged<'a>) -> &'a [i64] {
        match judged {
            Judged::TruthsOf(xs) => *xs,
            _ => unreachable!(),
        }
    }
}

// `int_wub`.
impl<'a> Joins<'a, &'a [bool], i64> for Number {
    ghost word = { λ kernel. words.One ones.IntOf };

    #[inline(always)]
    fn judged<E: Execution>(
        self,
        judge: &Judge<'_, 'a, E>,
        call: &'a Call,
    ) -> Result<Judged<'a>, Stop> {
        match call {
            Call::IntOf { a, .. } => numbers_of(judge.memory, a),
            _ => unreachable!(),
        }
    }

    #[inline(always)]
    fn part(self, judged: &Judged<'a>) -> &'a [bool] {
        match judged {
            Judged::NumbersOf(xs) => *xs,
            _ => unreachable!(),
        }
    }
}

// `OP_wuz` of two vectors.
impl<'a> Joins<'a, (&'a [i64], &'a [i64]), i64> for Z2 {
    ghost word = { λ op. words.Two (twos.MapZ2 op) };

    #[inline(always)]
    fn judged<E: Execution>(
        self,
        judge: &Judge<'_, 'a, E>,
        call: &'a Call,
    ) -> Result<Judged<'a>, Stop> {
        match call {
            Call::MapZ2 { op, a, b, .. } => map_ints(judge.memory, *op, a, b),
            _ => unreachable!(),
        }
    }

    #[inline(always)]
    fn part(self, judged: &Judged<'a>) -> (&'a [i64], &'a [i64]) {
        match judged {
            Judged::MapInts(_, xs, ys) => (*xs, *ys),
            _ => unreachable!(),
        }
    }
}

// `OP_wuz` of two vectors, to truth values.
impl<'a> Joins<'a, (&'a [i64], &'a [i64]), bool> for Cmp {
    ghost word = { λ op. words.Two (twos.CmpZ op) };

    #[inline(always)]
    fn judged<E: Execution>(
        self,
        judge: &Judge<'_, 'a, E>,
        call: &'a Call,
    ) -> Result<Judged<'a>, Stop> {
        match call {
            Call::CmpZ { op, a, b, .. } => compare(judge.memory, *op, a, b),
            _ => unreachable!(),
        }
    }

    #[inline(always)]
    fn part(self, judged: &Judged<'a>) -> (&'a [i64], &'a [i64]) {
        match judged {
            Judged::Compare(_, xs, ys) => (*xs, *ys),
            _ => unreachable!(),
        }
    }
}

// `OP_wub` of two vectors.
impl<'a> Joins<'a, (&'a [bool], &'a [bool]), bool> for B2 {
    ghost word = { λ op. words.Two (twos.MapB2 op) };

    #[inline(always)]
    fn judged<E: Execution>(
        self,
        judge: &Judge<'_, 'a, E>,
        call: &'a Call,
    ) -> Result<Judged<'a>, Stop> {
        match call {
            Call::MapB2 { op, a, b, .. } => map_bools(judge.memory, *op, a, b),
            _ => unreachable!(),
        }
    }

    #[inline(always)]
    fn part(self, judged: &Judged<'a>) -> (&'a [bool], &'a [bool]) {
        match judged {
            Judged::MapBools(_, xs, ys) => (*xs, *ys),
            _ => unreachable!(),
        }
    }
}

// `sel_wuz`.
impl<'a> Joins<'a, (&'a [bool], &'a [i64], &'a [i64]), i64> for Select {
    ghost word = { λ kernel. words.Three (threes.Sel kinds.Z) };

    #[inline(always)]
    fn judged<E: Execution>(
        self,
        judge: &Judge<'_, 'a, E>,
        call: &'a Call,
    ) -> Result<Judged<'a>, Stop> {
        match call {
            Call::Sel {
                kind: Kind::Z,
                f,
                a,
                b,
                ..
            } => select_ints(judge.memory, f, a, b),
            _ => unreachable!(),
        }
    }

    #[inline(always)]
    fn part(self, judged: &Judged<'a>) -> (&'a [bool], &'a [i64], &'a [i64]) {
        match judged {
            Judged::SelectInts(flags, xs, ys) => (*flags, *xs, *ys),
            _ => unreachable!(),
        }
    }
}

// `sel_wub`.
impl<'a> Joins<'a, (&'a [bool], &'a [bool], &'a [bool]), bool> for Select {
    ghost word = { λ kernel. words.Three (threes.Sel kinds.B) };

    #[inline(always)]
    fn judged<E: Execution>(
        self,
        judge: &Judge<'_, 'a, E>,
        call: &'a Call,
    ) -> Result<Judged<'a>, Stop> {
        match call {
            Call::Sel {
                kind: Kind::B,
                f,
                a,
                b,
                ..
            } => select_bools(judge.memory, f, a, b),
            _ => unreachable!(),
        }
    }

    #[inline(always)]
    fn part(self, judged: &Judged<'a>) -> (&'a [bool], &'a [bool], &'a [bool]) {
        match judged {
            Judged::SelectBools(flags, xs, ys) => (*flags, *xs, *ys),
            _ => unreachable!(),
        }
    }
}

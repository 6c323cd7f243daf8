//! Distributions and index vectors.

ghost use Rattle.cvl_text.specs.declared.word.Kind.TheVariants as kinds;
ghost use Rattle.cvl_text.specs.declared.word.ThreeWord.TheVariants as threes;
ghost use Rattle.cvl_text.specs.declared.word.TwoWord.TheVariants as twos;
ghost use Rattle.cvl_text.specs.declared.word.Word.TheVariants as words;

use crate::joining::parts::{Joins, Judge};
use crate::judged::Judged;
use crate::operands::Vector;
use crate::shapes::spreads::{distribute, index, index_segments, repeat_bool, repeat_int};
use crate::stop::Stop;
use cvl_text::{Call, Kind};
use scan_kernels::Execution;
use scan_kernels::joined::{Distribute, Index, IndexSegments, Repeat};
use segment_desc::Segd;
use vector_memory::laws::memories_are_lawful;

// `dis_vuz`.
impl<'a> Joins<'a, (i64, usize), i64> for Repeat {
    ghost word = { λ kernel. words.DisZ };

    #[inline(always)]
    fn judged<E: Execution>(
        self,
        judge: &Judge<'_, 'a, E>,
        call: &'a Call,
    ) -> Result<Judged<'a>, Stop> {
        match call {
            Call::DisZ { x, n, .. } => repeat_int(judge.memory.limit(), *x, *n),
            _ => unreachable!(),
        }
    }

    #[inline(always)]
    fn part(self, judged: &Judged<'a>) -> (i64, usize) {
        match judged {
            Judged::RepeatInt(x, count) => (*x, *count),
            _ => unreachable!(),
        }
    }
}

// `dis_vez`.
impl<'a> Joins<'a, (&'a [i64], &'a Segd), i64> for Distribute {
    ghost word = { λ kernel. words.Two (twos.DisSeg kinds.Z) };

    #[inline(always)]
    fn judged<E: Execution>(
        self,
        judge: &Judge<'_, 'a, E>,
        call: &'a Call,
    ) -> Result<Judged<'a>, Stop> {
        match call {
            Call::DisSeg {
                kind: Kind::Z,
                a,
                s,
                ..
            } => distribute(judge.memory, Kind::Z, a, s),
            _ => unreachable!(),
        }
    }

    #[inline(always)]
    fn part(self, judged: &Judged<'a>) -> (&'a [i64], &'a Segd) {
        match judged {
            Judged::Distribute(Vector::Ints(xs), segments) => (*xs, *segments),
            _ => unreachable!(),
        }
    }
}

// `dis_vub`.
impl<'a> Joins<'a, (bool, usize), bool> for Repeat {
    ghost word = { λ kernel. words.DisB };

    #[inline(always)]
    fn judged<E: Execution>(
        self,
        judge: &Judge<'_, 'a, E>,
        call: &'a Call,
    ) -> Result<Judged<'a>, Stop> {
        match call {
            Call::DisB { x, n, .. } => repeat_bool(judge.memory.limit(), *x, *n),
            _ => unreachable!(),
        }
    }

    #[inline(always)]
    fn part(self, judged: &Judged<'a>) -> (bool, usize) {
        match judged {
            Judged::RepeatBool(x, count) => (*x, *count),
            _ => unreachable!(),
        }
    }
}

// `dis_veb`.
impl<'a> Joins<'a, (&'a [bool], &'a Segd), bool> for Distribute {
    ghost word = { λ kernel. words.Two (twos.DisSeg kinds.B) };

    #[inline(always)]
    fn judged<E: Execution>(
        self,
        judge: &Judge<'_, 'a, E>,
        call: &'a Call,
    ) -> Result<Judged<'a>, Stop> {
        match call {
            Call::DisSeg {
                kind: Kind::B,
                a,
                s,
                ..
            } => distribute(judge.memory, Kind::B, a, s),
            _ => unreachable!(),
        }
    }

    #[inline(always)]
    fn part(self, judged: &Judged<'a>) -> (&'a [bool], &'a Segd) {
        match judged {
            Judged::Distribute(Vector::Bools(xs), segments) => (*xs, *segments),
            _ => unreachable!(),
        }
    }
}

// `ind_luz`.
impl<'a> Joins<'a, (i64, i64, usize), i64> for Index {
    ghost word = { λ kernel. words.Ind };

    #[inline(always)]
    fn judged<E: Execution>(
        self,
        judge: &Judge<'_, 'a, E>,
        call: &'a Call,
    ) -> Result<Judged<'a>, Stop> {
        match call {
            Call::Ind { u, v, n, .. } => {
                memories_are_lawful(judge.memory);
                index(judge.memory.limit(), *u, *v, *n)
            }
            _ => unreachable!(),
        }
    }

    #[inline(always)]
    fn part(self, judged: &Judged<'a>) -> (i64, i64, usize) {
        match judged {
            Judged::Index(start, stride, count) => (*start, *stride, *count),
            _ => unreachable!(),
        }
    }
}

// `ind_lez`.
impl<'a> Joins<'a, (&'a [i64], &'a [i64], &'a Segd), i64> for IndexSegments {
    ghost word = { λ kernel. words.Three threes.IndSeg };

    #[inline(always)]
    fn judged<E: Execution>(
        self,
        judge: &Judge<'_, 'a, E>,
        call: &'a Call,
    ) -> Result<Judged<'a>, Stop> {
        match call {
            Call::IndSeg { a, b, s, .. } => index_segments(judge.memory, a, b, s),
            _ => unreachable!(),
        }
    }

    #[inline(always)]
    fn part(self, judged: &Judged<'a>) -> (&'a [i64], &'a [i64], &'a Segd) {
        match judged {
            Judged::IndexSegments(starts, strides, segments) => (*starts, *strides, *segments),
            _ => unreachable!(),
        }
    }
}

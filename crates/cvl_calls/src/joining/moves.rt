//! Permutes and back permutes.

ghost use Rattle.cvl_text.specs.declared.word.Kind.TheVariants as kinds;
ghost use Rattle.cvl_text.specs.declared.word.ThreeWord.TheVariants as threes;
ghost use Rattle.cvl_text.specs.declared.word.TwoWord.TheVariants as twos;
ghost use Rattle.cvl_text.specs.declared.word.Word.TheVariants as words;

use crate::joining::parts::{Joins, Judge};
use crate::judged::Judged;
use crate::operands::Vector;
use crate::shapes::moves::{gather, gather_segments, permute, permute_segments};
use crate::stop::Stop;
use cvl_text::{Call, Kind};
use permute_kernels::{BackPermute, Gather, Permute, PermuteWhole};
use scan_kernels::Execution;
use segment_desc::Segd;

// `smp_puz`.
impl<'a> Joins<'a, (&'a [i64], &'a [i64]), i64> for PermuteWhole {
    ghost word = { λ kernel. words.Two (twos.Smp kinds.Z) };

    #[inline(always)]
    fn judged<E: Execution>(
        self,
        judge: &Judge<'_, 'a, E>,
        call: &'a Call,
    ) -> Result<Judged<'a>, Stop> {
        match call {
            Call::Smp {
                kind: Kind::Z,
                a,
                i,
                ..
            } => permute(
                judge.execution,
                judge.alloc,
                judge.meter,
                judge.memory,
                Kind::Z,
                a,
                i,
            ),
            _ => unreachable!(),
        }
    }

    #[inline(always)]
    fn part(self, judged: &Judged<'a>) -> (&'a [i64], &'a [i64]) {
        match judged {
            Judged::Permute(Vector::Ints(xs), places) => (*xs, *places),
            _ => unreachable!(),
        }
    }
}

// `smp_pez`.
impl<'a> Joins<'a, (&'a [i64], &'a [i64], &'a Segd), i64> for Permute {
    ghost word = { λ kernel. words.Three (threes.SmpSeg kinds.Z) };

    #[inline(always)]
    fn judged<E: Execution>(
        self,
        judge: &Judge<'_, 'a, E>,
        call: &'a Call,
    ) -> Result<Judged<'a>, Stop> {
        match call {
            Call::SmpSeg {
                kind: Kind::Z,
                a,
                i,
                s,
                ..
            } => permute_segments(
                judge.execution,
                judge.alloc,
                judge.meter,
                judge.memory,
                Kind::Z,
                a,
                i,
                s,
            ),
            _ => unreachable!(),
        }
    }

    #[inline(always)]
    fn part(self, judged: &Judged<'a>) -> (&'a [i64], &'a [i64], &'a Segd) {
        match judged {
            Judged::PermuteSegments(Vector::Ints(xs), places, segments) => (
                *xs, *places, *segments,
            ),
            _ => unreachable!(),
        }
    }
}

// `bck_puz`.
impl<'a> Joins<'a, (&'a [i64], &'a [i64]), i64> for Gather {
    ghost word = { λ kernel. words.Two (twos.Bck kinds.Z) };

    #[inline(always)]
    fn judged<E: Execution>(
        self,
        judge: &Judge<'_, 'a, E>,
        call: &'a Call,
    ) -> Result<Judged<'a>, Stop> {
        match call {
            Call::Bck {
                kind: Kind::Z,
                a,
                i,
                ..
            } => gather(judge.execution, judge.meter, judge.memory, Kind::Z, a, i),
            _ => unreachable!(),
        }
    }

    #[inline(always)]
    fn part(self, judged: &Judged<'a>) -> (&'a [i64], &'a [i64]) {
        match judged {
            Judged::Gather(Vector::Ints(xs), places) => (*xs, *places),
            _ => unreachable!(),
        }
    }
}

// `bck_pez`.
impl<'a> Joins<'a, (&'a [i64], &'a Segd, &'a [i64], &'a Segd), i64> for BackPermute {
    ghost word = { λ kernel. words.BckSeg kinds.Z };

    #[inline(always)]
    fn judged<E: Execution>(
        self,
        judge: &Judge<'_, 'a, E>,
        call: &'a Call,
    ) -> Result<Judged<'a>, Stop> {
        match call {
            Call::BckSeg {
                kind: Kind::Z,
                a,
                s,
                index,
                ..
            } => gather_segments(
                judge.execution,
                judge.meter,
                judge.memory,
                Kind::Z,
                a,
                s,
                &index.i,
                &index.t,
            ),
            _ => unreachable!(),
        }
    }

    #[inline(always)]
    fn part(self, judged: &Judged<'a>) -> (&'a [i64], &'a Segd, &'a [i64], &'a Segd) {
        match judged {
            Judged::GatherSegments(Vector::Ints(xs), source, places, by) => (
                *xs, *source, *places, *by,
            ),
            _ => unreachable!(),
        }
    }
}

// `smp_pub`.
impl<'a> Joins<'a, (&'a [bool], &'a [i64]), bool> for PermuteWhole {
    ghost word = { λ kernel. words.Two (twos.Smp kinds.B) };

    #[inline(always)]
    fn judged<E: Execution>(
        self,
        judge: &Judge<'_, 'a, E>,
        call: &'a Call,
    ) -> Result<Judged<'a>, Stop> {
        match call {
            Call::Smp {
                kind: Kind::B,
                a,
                i,
                ..
            } => permute(
                judge.execution,
                judge.alloc,
                judge.meter,
                judge.memory,
                Kind::B,
                a,
                i,
            ),
            _ => unreachable!(),
        }
    }

    #[inline(always)]
    fn part(self, judged: &Judged<'a>) -> (&'a [bool], &'a [i64]) {
        match judged {
            Judged::Permute(Vector::Bools(xs), places) => (*xs, *places),
            _ => unreachable!(),
        }
    }
}

// `smp_peb`.
impl<'a> Joins<'a, (&'a [bool], &'a [i64], &'a Segd), bool> for Permute {
    ghost word = { λ kernel. words.Three (threes.SmpSeg kinds.B) };

    #[inline(always)]
    fn judged<E: Execution>(
        self,
        judge: &Judge<'_, 'a, E>,
        call: &'a Call,
    ) -> Result<Judged<'a>, Stop> {
        match call {
            Call::SmpSeg {
                kind: Kind::B,
                a,
                i,
                s,
                ..
            } => permute_segments(
                judge.execution,
                judge.alloc,
                judge.meter,
                judge.memory,
                Kind::B,
                a,
                i,
                s,
            ),
            _ => unreachable!(),
        }
    }

    #[inline(always)]
    fn part(self, judged: &Judged<'a>) -> (&'a [bool], &'a [i64], &'a Segd) {
        match judged {
            Judged::PermuteSegments(Vector::Bools(xs), places, segments) => (
                *xs, *places, *segments,
            ),
            _ => unreachable!(),
        }
    }
}

// `bck_pub`.
impl<'a> Joins<'a, (&'a [bool], &'a [i64]), bool> for Gather {
    ghost word = { λ kernel. words.Two (twos.Bck kinds.B) };

    #[inline(always)]
    fn judged<E: Execution>(
        self,
        judge: &Judge<'_, 'a, E>,
        call: &'a Call,
    ) -> Result<Judged<'a>, Stop> {
        match call {
            Call::Bck {
                kind: Kind::B,
                a,
                i,
                ..
            } => gather(judge.execution, judge.meter, judge.memory, Kind::B, a, i),
            _ => unreachable!(),
        }
    }

    #[inline(always)]
    fn part(self, judged: &Judged<'a>) -> (&'a [bool], &'a [i64]) {
        match judged {
            Judged::Gather(Vector::Bools(xs), places) => (*xs, *places),
            _ => unreachable!(),
        }
    }
}

// `bck_peb`.
impl<'a> Joins<'a, (&'a [bool], &'a Segd, &'a [i64], &'a Segd), bool> for BackPermute {
    ghost word = { λ kernel. words.BckSeg kinds.B };

    #[inline(always)]
    fn judged<E: Execution>(
        self,
        judge: &Judge<'_, 'a, E>,
        call: &'a Call,
    ) -> Result<Judged<'a>, Stop> {
        match call {
            Call::BckSeg {
                kind: Kind::B,
                a,
                s,
                index,
                ..
            } => gather_segments(
                judge.execution,
                judge.meter,
                judge.memory,
                Kind::B,
                a,
                s,
                &index.i,
                &index.t,
            ),
            _ => unreachable!(),
        }
    }

    #[inline(always)]
    fn part(self, judged: &Judged<'a>) -> (&'a [bool], &'a Segd, &'a [i64], &'a Segd) {
        match judged {
            Judged::GatherSegments(Vector::Bools(xs), source, places, by) => (
                *xs, *source, *places, *by,
            ),
            _ => unreachable!(),
        }
    }
}

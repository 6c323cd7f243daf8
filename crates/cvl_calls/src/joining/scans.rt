//! Scans, and reductions of segments.

ghost use Rattle.cvl_text.specs.declared.word.OneWord.TheVariants as ones;
ghost use Rattle.cvl_text.specs.declared.word.TwoWord.TheVariants as twos;
ghost use Rattle.cvl_text.specs.declared.word.Word.TheVariants as words;

use crate::joining::parts::{Joins, Judge};
use crate::judged::Judged;
use crate::shapes::scans::{
    reduce_bool_segments, reduce_int_segments, scan_bool_segments, scan_bools, scan_int_segments,
    scan_ints,
};
use crate::stop::Stop;
use cvl_text::Call;
use scan_kernels::Execution;
use scan_kernels::joined::{
    ReduceBoolSegments, ReduceIntSegments, ScanBoolSegments, ScanBools, ScanIntSegments, ScanInts,
};
use segment_desc::Segd;

// `OP_suz`.
impl<'a> Joins<'a, &'a [i64], i64> for ScanInts {
    ghost word = { λ op. words.One (ones.ScanZ op.0) };

    #[inline(always)]
    fn judged<E: Execution>(
        self,
        judge: &Judge<'_, 'a, E>,
        call: &'a Call,
    ) -> Result<Judged<'a>, Stop> {
        match call {
            Call::ScanOfZ { op, a, s: None, .. } => scan_ints(judge.memory, *op, a),
            _ => unreachable!(),
        }
    }

    #[inline(always)]
    fn part(self, judged: &Judged<'a>) -> &'a [i64] {
        match judged {
            Judged::ScanInts(_, xs) => *xs,
            _ => unreachable!(),
        }
    }
}

// `OP_sez`.
impl<'a> Joins<'a, (&'a [i64], &'a Segd), i64> for ScanIntSegments {
    ghost word = { λ op. words.Two (twos.ScanSegZ op.0) };

    #[inline(always)]
    fn judged<E: Execution>(
        self,
        judge: &Judge<'_, 'a, E>,
        call: &'a Call,
    ) -> Result<Judged<'a>, Stop> {
        match call {
            Call::ScanOfZ {
                op,
                a,
                s: Some(s),
                ..
            } => scan_int_segments(judge.memory, *op, a, s),
            _ => unreachable!(),
        }
    }

    #[inline(always)]
    fn part(self, judged: &Judged<'a>) -> (&'a [i64], &'a Segd) {
        match judged {
            Judged::ScanIntSegments(_, xs, segments) => (*xs, *segments),
            _ => unreachable!(),
        }
    }
}

// `OP_rez`.
impl<'a> Joins<'a, (&'a [i64], &'a Segd), i64> for ReduceIntSegments {
    ghost word = { λ op. words.Two (twos.RedSegZ op.0) };

    #[inline(always)]
    fn judged<E: Execution>(
        self,
        judge: &Judge<'_, 'a, E>,
        call: &'a Call,
    ) -> Result<Judged<'a>, Stop> {
        match call {
            Call::RedSegZ { op, a, s, .. } => reduce_int_segments(judge.memory, *op, a, s),
            _ => unreachable!(),
        }
    }

    #[inline(always)]
    fn part(self, judged: &Judged<'a>) -> (&'a [i64], &'a Segd) {
        match judged {
            Judged::ReduceIntSegments(_, xs, segments) => (*xs, *segments),
            _ => unreachable!(),
        }
    }
}

// `OP_sub`.
impl<'a> Joins<'a, &'a [bool], bool> for ScanBools {
    ghost word = { λ op. words.One (ones.ScanB op.0) };

    #[inline(always)]
    fn judged<E: Execution>(
        self,
        judge: &Judge<'_, 'a, E>,
        call: &'a Call,
    ) -> Result<Judged<'a>, Stop> {
        match call {
            Call::ScanOfB { op, a, s: None, .. } => scan_bools(judge.memory, *op, a),
            _ => unreachable!(),
        }
    }

    #[inline(always)]
    fn part(self, judged: &Judged<'a>) -> &'a [bool] {
        match judged {
            Judged::ScanBools(_, xs) => *xs,
            _ => unreachable!(),
        }
    }
}

// `OP_seb`.
impl<'a> Joins<'a, (&'a [bool], &'a Segd), bool> for ScanBoolSegments {
    ghost word = { λ op. words.Two (twos.ScanSegB op.0) };

    #[inline(always)]
    fn judged<E: Execution>(
        self,
        judge: &Judge<'_, 'a, E>,
        call: &'a Call,
    ) -> Result<Judged<'a>, Stop> {
        match call {
            Call::ScanOfB {
                op,
                a,
                s: Some(s),
                ..
            } => scan_bool_segments(judge.memory, *op, a, s),
            _ => unreachable!(),
        }
    }

    #[inline(always)]
    fn part(self, judged: &Judged<'a>) -> (&'a [bool], &'a Segd) {
        match judged {
            Judged::ScanBoolSegments(_, xs, segments) => (*xs, *segments),
            _ => unreachable!(),
        }
    }
}

// `OP_reb`.
impl<'a> Joins<'a, (&'a [bool], &'a Segd), bool> for ReduceBoolSegments {
    ghost word = { λ op. words.Two (twos.RedSegB op.0) };

    #[inline(always)]
    fn judged<E: Execution>(
        self,
        judge: &Judge<'_, 'a, E>,
        call: &'a Call,
    ) -> Result<Judged<'a>, Stop> {
        match call {
            Call::RedSegB { op, a, s, .. } => reduce_bool_segments(judge.memory, *op, a, s),
            _ => unreachable!(),
        }
    }

    #[inline(always)]
    fn part(self, judged: &Judged<'a>) -> (&'a [bool], &'a Segd) {
        match judged {
            Judged::ReduceBoolSegments(_, xs, segments) => (*xs, *segments),
            _ => unreachable!(),
        }
    }
}

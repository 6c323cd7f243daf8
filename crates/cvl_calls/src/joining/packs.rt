//! Packs.

ghost use Rattle.cvl_text.specs.declared.word.Kind.TheVariants as kinds;
ghost use Rattle.cvl_text.specs.declared.word.ThreeWord.TheVariants as threes;
ghost use Rattle.cvl_text.specs.declared.word.TwoWord.TheVariants as twos;
ghost use Rattle.cvl_text.specs.declared.word.Word.TheVariants as words;

use crate::joining::parts::{Joins, Judge};
use crate::judged::Judged;
use crate::operands::Vector;
use crate::shapes::packs::{pack, pack_lengths, pack_segments};
use crate::stop::Stop;
use cvl_text::{Call, Kind};
use permute_kernels::{Pack, PackLengths, PackSegments};
use scan_kernels::Execution;
use segment_desc::Segd;

// `pck_puz`.
impl<'a> Joins<'a, (&'a [i64], &'a [bool]), i64> for Pack {
    ghost word = { λ kernel. words.Two (twos.Pck kinds.Z) };

    #[inline(always)]
    fn judged<E: Execution>(
        self,
        judge: &Judge<'_, 'a, E>,
        call: &'a Call,
    ) -> Result<Judged<'a>, Stop> {
        match call {
            Call::Pck {
                kind: Kind::Z,
                a,
                f,
                ..
            } => pack(judge.memory, Kind::Z, a, f),
            _ => unreachable!(),
        }
    }

    #[inline(always)]
    fn part(self, judged: &Judged<'a>) -> (&'a [i64], &'a [bool]) {
        match judged {
            Judged::Pack(Vector::Ints(xs), flags) => (*xs, *flags),
            _ => unreachable!(),
        }
    }
}

// `pck_pez`.
impl<'a> Joins<'a, (&'a [i64], &'a [bool], &'a Segd), i64> for PackSegments {
    ghost word = { λ kernel. words.Three (threes.PckSeg kinds.Z) };

    #[inline(always)]
    fn judged<E: Execution>(
        self,
        judge: &Judge<'_, 'a, E>,
        call: &'a Call,
    ) -> Result<Judged<'a>, Stop> {
        match call {
            Call::PckSeg {
                kind: Kind::Z,
                a,
                f,
                s,
                ..
            } => pack_segments(judge.memory, Kind::Z, a, f, s),
            _ => unreachable!(),
        }
    }

    #[inline(always)]
    fn part(self, judged: &Judged<'a>) -> (&'a [i64], &'a [bool], &'a Segd) {
        match judged {
            Judged::PackSegments(Vector::Ints(xs), flags, segments) => (*xs, *flags, *segments),
            _ => unreachable!(),
        }
    }
}

// `pck_pub`.
impl<'a> Joins<'a, (&'a [bool], &'a [bool]), bool> for Pack {
    ghost word = { λ kernel. words.Two (twos.Pck kinds.B) };

    #[inline(always)]
    fn judged<E: Execution>(
        self,
        judge: &Judge<'_, 'a, E>,
        call: &'a Call,
    ) -> Result<Judged<'a>, Stop> {
        match call {
            Call::Pck {
                kind: Kind::B,
                a,
                f,
                ..
            } => pack(judge.memory, Kind::B, a, f),
            _ => unreachable!(),
        }
    }

    #[inline(always)]
    fn part(self, judged: &Judged<'a>) -> (&'a [bool], &'a [bool]) {
        match judged {
            Judged::Pack(Vector::Bools(xs), flags) => (*xs, *flags),
            _ => unreachable!(),
        }
    }
}

// `pck_peb`.
impl<'a> Joins<'a, (&'a [bool], &'a [bool], &'a Segd), bool> for PackSegments {
    ghost word = { λ kernel. words.Three (threes.PckSeg kinds.B) };

    #[inline(always)]
    fn judged<E: Execution>(
        self,
        judge: &Judge<'_, 'a, E>,
        call: &'a Call,
    ) -> Result<Judged<'a>, Stop> {
        match call {
            Call::PckSeg {
                kind: Kind::B,
                a,
                f,
                s,
                ..
            } => pack_segments(judge.memory, Kind::B, a, f, s),
            _ => unreachable!(),
        }
    }

    #[inline(always)]
    fn part(self, judged: &Judged<'a>) -> (&'a [bool], &'a [bool], &'a Segd) {
        match judged {
            Judged::PackSegments(Vector::Bools(xs), flags, segments) => (*xs, *flags, *segments),
            _ => unreachable!(),
        }
    }
}

// `pkl_leb`.
impl<'a> Joins<'a, (&'a [bool], &'a Segd), i64> for PackLengths {
    ghost word = { λ kernel. words.Two twos.Pkl };

    #[inline(always)]
    fn judged<E: Execution>(
        self,
        judge: &Judge<'_, 'a, E>,
        call: &'a Call,
    ) -> Result<Judged<'a>, Stop> {
        match call {
            Call::Pkl { f, s, .. } => pack_lengths(judge.memory, f, s),
            _ => unreachable!(),
        }
    }

    #[inline(always)]
    fn part(self, judged: &Judged<'a>) -> (&'a [bool], &'a Segd) {
        match judged {
            Judged::PackLengths(flags, segments) => (*flags, *segments),
            _ => unreachable!(),
        }
    }
}

//! Call words from their texts.

ghost use Rattle.std.specs.Prelude.{◌≡◌, ◌≢◌, ◌++◌, length};
ghost use Rattle.std.specs.Option.{option_and_then};
ghost use Rattle.cvl_text.specs.Words.{beside, same_text, word_of};

use crate::word::{
    AskWord, B1, B2, Cmp, Kind, OneWord, ScanB, ScanZ, ThreeWord, TwoWord, Word, Z1, Z2,
};

/// An operation as it is written, and the word that it makes in its shape.
type Row = ([u8; 3], Word);

/// A shape as it is written behind the operations, and its rows.
type Shape = ([u8; 4], &'static [Row]);

/// All words of an operation and a shape.
static SHAPES: [Shape; 24] = [
    (
        *b"_wuz",
        &[
            (*b"add", Word::Two(TwoWord::MapZ2(Z2::Add))),
            (*b"sub", Word::Two(TwoWord::MapZ2(Z2::Sub))),
            (*b"mul", Word::Two(TwoWord::MapZ2(Z2::Mul))),
            (*b"div", Word::Two(TwoWord::MapZ2(Z2::Div))),
            (*b"mod", Word::Two(TwoWord::MapZ2(Z2::Mod))),
            (*b"max", Word::Two(TwoWord::MapZ2(Z2::Max))),
            (*b"min", Word::Two(TwoWord::MapZ2(Z2::Min))),
            (*b"and", Word::Two(TwoWord::MapZ2(Z2::And))),
            (*b"ior", Word::Two(TwoWord::MapZ2(Z2::Ior))),
            (*b"xor", Word::Two(TwoWord::MapZ2(Z2::Xor))),
            (*b"lsh", Word::Two(TwoWord::MapZ2(Z2::Lsh))),
            (*b"rsh", Word::Two(TwoWord::MapZ2(Z2::Rsh))),
            (*b"eql", Word::Two(TwoWord::CmpZ(Cmp::Eql))),
            (*b"neq", Word::Two(TwoWord::CmpZ(Cmp::Neq))),
            (*b"les", Word::Two(TwoWord::CmpZ(Cmp::Les))),
            (*b"leq", Word::Two(TwoWord::CmpZ(Cmp::Leq))),
            (*b"grt", Word::Two(TwoWord::CmpZ(Cmp::Grt))),
            (*b"geq", Word::Two(TwoWord::CmpZ(Cmp::Geq))),
            (*b"not", Word::One(OneWord::MapZ1(Z1::Not))),
            (*b"cpy", Word::One(OneWord::MapZ1(Z1::Cpy))),
            (*b"sel", Word::Three(ThreeWord::Sel(Kind::Z))),
            (*b"boo", Word::One(OneWord::Boo)),
        ],
    ),
    (
        *b"_wub",
        &[
            (*b"and", Word::Two(TwoWord::MapB2(B2::And))),
            (*b"ior", Word::Two(TwoWord::MapB2(B2::Ior))),
            (*b"xor", Word::Two(TwoWord::MapB2(B2::Xor))),
            (*b"not", Word::One(OneWord::MapB1(B1::Not))),
            (*b"cpy", Word::One(OneWord::MapB1(B1::Cpy))),
            (*b"sel", Word::Three(ThreeWord::Sel(Kind::B))),
            (*b"int", Word::One(OneWord::IntOf)),
        ],
    ),
    (
        *b"_suz",
        &[
            (*b"add", Word::One(OneWord::ScanZ(ScanZ::Add))),
            (*b"mul", Word::One(OneWord::ScanZ(ScanZ::Mul))),
            (*b"max", Word::One(OneWord::ScanZ(ScanZ::Max))),
            (*b"min", Word::One(OneWord::ScanZ(ScanZ::Min))),
            (*b"and", Word::One(OneWord::ScanZ(ScanZ::And))),
            (*b"ior", Word::One(OneWord::ScanZ(ScanZ::Ior))),
            (*b"xor", Word::One(OneWord::ScanZ(ScanZ::Xor))),
        ],
    ),
    (
        *b"_sez",
        &[
            (*b"add", Word::Two(TwoWord::ScanSegZ(ScanZ::Add))),
            (*b"mul", Word::Two(TwoWord::ScanSegZ(ScanZ::Mul))),
            (*b"max", Word::Two(TwoWord::ScanSegZ(ScanZ::Max))),
            (*b"min", Word::Two(TwoWord::ScanSegZ(ScanZ::Min))),
            (*b"and", Word::Two(TwoWord::ScanSegZ(ScanZ::And))),
            (*b"ior", Word::Two(TwoWord::ScanSegZ(ScanZ::Ior))),
            (*b"xor", Word::Two(TwoWord::ScanSegZ(ScanZ::Xor))),
        ],
    ),
    (
        *b"_ruz",
        &[
            (*b"add", Word::Ask(AskWord::RedZ(ScanZ::Add))),
            (*b"mul", Word::Ask(AskWord::RedZ(ScanZ::Mul))),
            (*b"max", Word::Ask(AskWord::RedZ(ScanZ::Max))),
            (*b"min", Word::Ask(AskWord::RedZ(ScanZ::Min))),
            (*b"and", Word::Ask(AskWord::RedZ(ScanZ::And))),
            (*b"ior", Word::Ask(AskWord::RedZ(ScanZ::Ior))),
            (*b"xor", Word::Ask(AskWord::RedZ(ScanZ::Xor))),
        ],
    ),
    (
        *b"_rez",
        &[
            (*b"add", Word::Two(TwoWord::RedSegZ(ScanZ::Add))),
            (*b"mul", Word::Two(TwoWord::RedSegZ(ScanZ::Mul))),
            (*b"max", Word::Two(TwoWord::RedSegZ(ScanZ::Max))),
            (*b"min", Word::Two(TwoWord::RedSegZ(ScanZ::Min))),
            (*b"and", Word::Two(TwoWord::RedSegZ(ScanZ::And))),
            (*b"ior", Word::Two(TwoWord::RedSegZ(ScanZ::Ior))),
            (*b"xor", Word::Two(TwoWord::RedSegZ(ScanZ::Xor))),
        ],
    ),
    (
        *b"_sub",
        &[
            (*b"and", Word::One(OneWord::ScanB(ScanB::And))),
            (*b"ior", Word::One(OneWord::ScanB(ScanB::Ior))),
            (*b"xor", Word::One(OneWord::ScanB(ScanB::Xor))),
        ],
    ),
    (
        *b"_seb",
        &[
            (*b"and", Word::Two(TwoWord::ScanSegB(ScanB::And))),
            (*b"ior", Word::Two(TwoWord::ScanSegB(ScanB::Ior))),
            (*b"xor", Word::Two(TwoWord::ScanSegB(ScanB::Xor))),
        ],
    ),
    (
        *b"_rub",
        &[
            (*b"and", Word::Ask(AskWord::RedB(ScanB::And))),
            (*b"ior", Word::Ask(AskWord::RedB(ScanB::Ior))),
            (*b"xor", Word::Ask(AskWord::RedB(ScanB::Xor))),
        ],
    ),
    (
        *b"_reb",
        &[
            (*b"and", Word::Two(TwoWord::RedSegB(ScanB::And))),
            (*b"ior", Word::Two(TwoWord::RedSegB(ScanB::Ior))),
            (*b"xor", Word::Two(TwoWord::RedSegB(ScanB::Xor))),
        ],
    ),
    (
        *b"_fov",
        &[
            (*b"mov", Word::One(OneWord::Mov)),
            (*b"fre", Word::Ask(AskWord::Free)),
            (*b"len", Word::Ask(AskWord::Len)),
            (*b"mke", Word::One(OneWord::MakeSegs)),
        ],
    ),
    (*b"_foz", &[(*b"alo", Word::Alo)]),
    (*b"_fos", &[(*b"len", Word::One(OneWord::LenSegs))]),
    (
        *b"_vuz",
        &[
            (*b"dis", Word::DisZ),
            (*b"ext", Word::Ext),
            (*b"rep", Word::Rep),
        ],
    ),
    (*b"_vub", &[(*b"dis", Word::DisB)]),
    (*b"_vez", &[(*b"dis", Word::Two(TwoWord::DisSeg(Kind::Z)))]),
    (*b"_veb", &[(*b"dis", Word::Two(TwoWord::DisSeg(Kind::B)))]),
    (*b"_luz", &[(*b"ind", Word::Ind)]),
    (*b"_lez", &[(*b"ind", Word::Three(ThreeWord::IndSeg))]),
    (*b"_leb", &[(*b"pkl", Word::Two(TwoWord::Pkl))]),
    (
        *b"_puz",
        &[
            (*b"smp", Word::Two(TwoWord::Smp(Kind::Z))),
            (*b"bck", Word::Two(TwoWord::Bck(Kind::Z))),
            (*b"pck", Word::Two(TwoWord::Pck(Kind::Z))),
        ],
    ),
    (
        *b"_pub",
        &[
            (*b"smp", Word::Two(TwoWord::Smp(Kind::B))),
            (*b"bck", Word::Two(TwoWord::Bck(Kind::B))),
            (*b"pck", Word::Two(TwoWord::Pck(Kind::B))),
        ],
    ),
    (
        *b"_pez",
        &[
            (*b"smp", Word::Three(ThreeWord::SmpSeg(Kind::Z))),
            (*b"bck", Word::BckSeg(Kind::Z)),
            (*b"pck", Word::Three(ThreeWord::PckSeg(Kind::Z))),
        ],
    ),
    (
        *b"_peb",
        &[
            (*b"smp", Word::Three(ThreeWord::SmpSeg(Kind::B))),
            (*b"bck", Word::BckSeg(Kind::B)),
            (*b"pck", Word::Three(ThreeWord::PckSeg(Kind::B))),
        ],
    ),
];

/// The word that an operation makes among the rows of a shape.
#[tactic(auto, unfolding(crate::specs::Words::beside))]
fn word_among(rows: &[Row], operation: [u8; 3]) -> Option<Word>
    ensures { result ≡ beside rows.now operation }
{
    for row in rows {
        if row.0 == operation {
            return Some(row.1);
        }
    }
    None
}

/// Whether two shapes are written the same, compared as one number each.
fn is_same_shape(a: [u8; 4], b: [u8; 4]) -> bool
    ensures { result ≡ same_text a b }
{
    u32::from_le_bytes(a) == u32::from_le_bytes(b)
}

/// The word that an operation makes in the first shape that is written so.
#[tactic(auto, unfolding(crate::specs::Words::beside))]
fn shaped_word(shapes: &[Shape], operation: [u8; 3], shape: [u8; 4]) -> Option<Word>
    ensures { result ≡ option_and_then (λ rows. beside rows.now operation) (beside shapes.now shape) }
{
    for row in shapes {
        if is_same_shape(row.0, shape) {
            return word_among(row.1, operation);
        }
    }
    None
}

/// The word of an operation and a shape.
fn call_word(operation: [u8; 3], shape: [u8; 4]) -> Option<Word>
    ensures { result ≡ word_of (operation ++ shape) }
{
    shaped_word(&SHAPES, operation, shape)
}

/// The word of a text that has no shape.
fn bare_word(text: &[u8]) -> Option<Word>
    requires { length text.now ≢ 7 }
    ensures { result ≡ word_of text.now }
{
    if text == b"z".as_slice() {
        Some(Word::SetInts)
    } else if text == b"b".as_slice() {
        Some(Word::SetBools)
    } else if text == b"get".as_slice() {
        Some(Word::Ask(AskWord::Get))
    } else {
        None
    }
}

/// The word that a text writes.
pub(crate) fn word_of(text: &[u8]) -> Option<Word>
    ensures { result ≡ word_of text.now }
{
    match text {
        [a, b, c, d, e, f, g] => call_word([*a, *b, *c], [*d, *e, *f, *g]),
        _ => bare_word(text),
    }
}

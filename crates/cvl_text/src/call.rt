use crate::word::{B1, B2, Cmp, Kind, ScanB, ScanZ, Z1, Z2};
use vector_memory::Name;

/// A call: what one line asks of the machine. `to` is the name that gets the result; the other names are read. Where a
/// segment list may be named, none stands for one segment. Three names lie in place and further ones behind a pointer, so
/// that a call takes 88 bytes. A vector has at most so many items as the memory's edition says (`Edition::limit`).
#[derive(Debug, Drop)]
pub enum Call {
    /// `to = z x ..`: the integers.
    SetInts {
        to: Name,
        items: Vec<i64>,
    },
    /// `to = b T F ..`: the truth values.
    SetBools {
        to: Name,
        items: Vec<bool>,
    },
    /// `get a`: the value, as a reply.
    Get {
        a: Name,
    },
    /// `to = mov_fov a`: the same value; `a` keeps it.
    Mov {
        to: Name,
        a: Name,
    },
    /// `fre_fov a`: the name and its value go.
    Free {
        a: Name,
    },
    /// `to = alo_foz n`: n zeros, from 0 to the limit of the edition.
    Alo {
        to: Name,
        n: i64,
    },
    /// `len_fov a`: the number of items, as a reply.
    Len {
        a: Name,
    },
    /// `to = mke_fov a`: the segment list of these lengths, none below 0, with a sum up to the limit of the edition.
    MakeSegs {
        to: Name,
        a: Name,
    },
    /// `to = len_fos s`: the lengths of the segments, as integers.
    LenSegs {
        to: Name,
        s: Name,
    },
    /// `to = add_wuz a b` and its kin: two vectors of integers of one length, item by item.
    MapZ2 {
        op: Z2,
        to: Name,
        a: Name,
        b: Name,
    },
    /// `to = not_wuz a`, `to = cpy_wuz a`: the integers one by one.
    MapZ1 {
        op: Z1,
        to: Name,
        a: Name,
    },
    /// `to = eql_wuz a b` and its kin: whether the comparison holds, item by item.
    CmpZ {
        op: Cmp,
        to: Name,
        a: Name,
        b: Name,
    },
    /// `to = and_wub a b` and its kin: two vectors of truth values of one length, item by item.
    MapB2 {
        op: B2,
        to: Name,
        a: Name,
        b: Name,
    },
    /// `to = not_wub a`, `to = cpy_wub a`: the truth values one by one.
    MapB1 {
        op: B1,
        to: Name,
        a: Name,
    },
    /// `to = sel_wuz f a b`, `to = sel_wub f a b`: the item of `a` where the flag is set, else that of `b`.
    Sel {
        kind: Kind,
        to: Name,
        f: Name,
        a: Name,
        b: Box<Name>,
    },
    /// `to = boo_wuz a`: whether each integer is not 0.
    Boo {
        to: Name,
        a: Name,
    },
    /// `to = int_wub a`: 1 for true, 0 for false.
    IntOf {
        to: Name,
        a: Name,
    },
    /// `to = add_suz a`, `to = add_sez a s` and their kin: at each item, what the operation makes of the items before
    /// it in its segment.
    ScanOfZ {
        op: ScanZ,
        to: Name,
        a: Name,
        s: Option<Name>,
    },
    /// `to = and_sub a`, `to = and_seb a s` and their kin: the same of truth values.
    ScanOfB {
        op: ScanB,
        to: Name,
        a: Name,
        s: Option<Name>,
    },
    /// `add_ruz a` and its kin: what the operation makes of all items, as a reply.
    RedZ {
        op: ScanZ,
        a: Name,
    },
    /// `and_rub a` and its kin: the same of truth values.
    RedB {
        op: ScanB,
        a: Name,
    },
    /// `to = add_rez a s` and its kin: what the operation makes of each segment.
    RedSegZ {
        op: ScanZ,
        to: Name,
        a: Name,
        s: Name,
    },
    /// `to = and_reb a s` and its kin: the same of truth values.
    RedSegB {
        op: ScanB,
        to: Name,
        a: Name,
        s: Name,
    },
    /// `to = dis_vuz x n`: n times the integer.
    DisZ {
        to: Name,
        x: i64,
        n: i64,
    },
    /// `to = dis_vub x n`: n times the truth value.
    DisB {
        to: Name,
        x: bool,
        n: i64,
    },
    /// `to = dis_vez a s`, `to = dis_veb a s`: each item as often as its segment is long.
    DisSeg {
        kind: Kind,
        to: Name,
        a: Name,
        s: Name,
    },
    /// `to = ind_luz u v n`: n integers from u on, by steps of v, wrapping.
    Ind {
        to: Name,
        u: i64,
        v: i64,
        n: i64,
    },
    /// `to = ind_lez a b s`: the same in each segment, from the items of `a` by those of `b`.
    IndSeg {
        to: Name,
        a: Name,
        b: Name,
        s: Box<Name>,
    },
    /// `to = smp_puz a i`, `to = smp_pub a i`: each item goes to the place that the index holds beside it.
    Smp {
        kind: Kind,
        to: Name,
        a: Name,
        i: Name,
    },
    /// `to = smp_pez a i s`, `to = smp_peb a i s`: the same in each segment.
    SmpSeg {
        kind: Kind,
        to: Name,
        a: Name,
        i: Name,
        s: Box<Name>,
    },
    /// `to = bck_puz a i`, `to = bck_pub a i`: for each index the item at its place.
    Bck {
        kind: Kind,
        to: Name,
        a: Name,
        i: Name,
    },
    /// `to = bck_pez a s i t`, `to = bck_peb a s i t`: the same, each segment of the index in its own segment of `a`.
    BckSeg {
        kind: Kind,
        to: Name,
        a: Name,
        s: Name,
        index: Box<SegmentedIndex>,
    },
    /// `to = pck_puz a f`, `to = pck_pub a f`: the items whose flag is set.
    Pck {
        kind: Kind,
        to: Name,
        a: Name,
        f: Name,
    },
    /// `to = pck_pez a f s`, `to = pck_peb a f s`: the same in each segment.
    PckSeg {
        kind: Kind,
        to: Name,
        a: Name,
        f: Name,
        s: Box<Name>,
    },
    /// `to = pkl_leb f s`: how many flags are set in each segment.
    Pkl {
        to: Name,
        f: Name,
        s: Name,
    },
    /// `ext_vuz a p`: the item at place p, as a reply.
    Ext {
        a: Name,
        p: i64,
    },
    /// `to = rep_vuz a p x`: the items of `a`, with x at place p.
    Rep {
        to: Name,
        a: Name,
        p: i64,
        x: i64,
    },
}

/// The index of a back permute by segments.
#[derive(Clone, Copy, Debug)]
pub struct SegmentedIndex {
    /// The places.
    pub i: Name,
    /// Their segments.
    pub t: Name,
}

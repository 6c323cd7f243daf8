//! The calls that a script may have, one of each call word and of each way of setting a name.

use crate::chance::Chance;
use std::alloc::{AllocError, Global};

/// A capital letter stands for a name of a kind: of numbers (Z), small numbers (D), a permutation (P), places (J), lengths of
/// segments (L), flags (B), a segment list (S), or anything (A). Or it stands for what is written: numbers (V), small ones (U), a
/// permutation (R), places (I), lengths (G), flags (W), one number (N) or one flag (F).
const PATTERNS: [&str; 103] = [
    "Z = zV",
    "D = zU",
    "P = zR",
    "J = zI",
    "L = zG",
    "B = bW",
    "S = mke_fov L",
    "get A",
    "fre_fov A",
    "len_fov A",
    "A = mov_fov A",
    "Z = alo_foz N",
    "L = len_fos S",
    "ext_vuz Z N",
    "Z = rep_vuz Z N N",
    "Z = add_wuz Z D",
    "Z = sub_wuz Z Z",
    "Z = mul_wuz Z Z",
    "Z = div_wuz Z D",
    "Z = mod_wuz Z D",
    "Z = max_wuz Z Z",
    "D = min_wuz D D",
    "Z = and_wuz Z D",
    "Z = ior_wuz Z Z",
    "Z = xor_wuz Z Z",
    "Z = lsh_wuz Z D",
    "Z = rsh_wuz Z D",
    "Z = not_wuz Z",
    "Z = cpy_wuz D",
    "B = eql_wuz D D",
    "B = neq_wuz Z Z",
    "B = les_wuz Z D",
    "B = leq_wuz Z Z",
    "B = grt_wuz D D",
    "B = geq_wuz Z P",
    "Z = sel_wuz B Z Z",
    "B = and_wub B B",
    "B = ior_wub B B",
    "B = xor_wub B B",
    "B = not_wub B",
    "B = cpy_wub B",
    "B = sel_wub B B B",
    "B = boo_wuz D",
    "Z = int_wub B",
    "Z = add_suz Z",
    "Z = mul_suz D",
    "Z = max_suz Z",
    "Z = min_suz Z",
    "Z = and_suz Z",
    "Z = ior_suz D",
    "Z = xor_suz Z",
    "B = and_sub B",
    "B = ior_sub B",
    "B = xor_sub B",
    "Z = add_sez Z S",
    "Z = mul_sez D S",
    "Z = max_sez Z S",
    "Z = min_sez Z S",
    "Z = and_sez Z S",
    "Z = ior_sez D S",
    "Z = xor_sez Z S",
    "B = and_seb B S",
    "B = ior_seb B S",
    "B = xor_seb B S",
    "add_ruz Z",
    "mul_ruz D",
    "max_ruz Z",
    "min_ruz Z",
    "and_ruz Z",
    "ior_ruz D",
    "xor_ruz Z",
    "and_rub B",
    "ior_rub B",
    "xor_rub B",
    "Z = add_rez Z S",
    "Z = mul_rez D S",
    "Z = max_rez Z S",
    "Z = min_rez Z S",
    "Z = and_rez Z S",
    "Z = ior_rez D S",
    "Z = xor_rez Z S",
    "B = and_reb B S",
    "B = ior_reb B S",
    "B = xor_reb B S",
    "Z = dis_vuz N N",
    "B = dis_vub F N",
    "Z = dis_vez L S",
    "B = dis_veb B S",
    "Z = ind_luz N N N",
    "Z = ind_lez L L S",
    "Z = smp_puz Z P",
    "B = smp_pub B P",
    "Z = smp_pez Z J S",
    "B = smp_peb B J S",
    "Z = bck_puz Z J",
    "B = bck_pub B P",
    "Z = bck_pez Z S J S",
    "B = bck_peb B S J S",
    "Z = pck_puz Z B",
    "B = pck_pub B B",
    "Z = pck_pez Z B S",
    "B = pck_peb B B S",
    "L = pkl_leb B S",
];

/// How many of them set a name, and no more.
const SETTING: u64 = 7;

/// Calls that set each name of each kind but one.
pub(crate) const OPENING: [&str; 18] = [
    "z0 = zV",
    "z1 = zV",
    "z2 = zV",
    "z3 = zV",
    "d0 = zU",
    "d1 = zU",
    "p0 = zR",
    "p1 = zR",
    "j0 = zI",
    "j1 = zI",
    "l0 = zG",
    "l1 = zG",
    "b0 = bW",
    "b1 = bW",
    "b2 = bW",
    "s0 = mke_fov l0",
    "s1 = mke_fov l1",
    "get s0",
];

/// So many patterns, one in four of those that set a name.
pub(crate) fn chosen(
    alloc: Global,
    chance: &mut Chance,
    count: u64,
) -> Result<Vec<&'static str>, AllocError> {
    let mut chosen = Vec::new(alloc);
    for _ in 0..count {
        let among = if chance.comes_once_in(4) {
            SETTING
        } else {
            PATTERNS.len() as u64
        };
        if let Some(pattern) = PATTERNS.get(chance.below(among) as usize) {
            chosen.push(*pattern)?;
        }
    }
    Ok(chosen)
}

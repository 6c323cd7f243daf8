//! The call words, and what stands round each.

ghost use Rattle.std.specs.Prelude.{◌≡◌};
ghost use Rattle.std.specs.Option.{option_map};
ghost use Rattle.cvl_text.specs.Words.{word_of, words_of};
ghost use Rattle.bad_lines.specs.Forms.{form_among, form_of_usage, form_of_word, is_among};

use crate::kind::Kind;
use cvl_text::next_word;

/// What may stand behind the arguments of a call word.
#[derive(Clone, Copy)]
pub(crate) enum Further {
    Nothing,
    Numbers,
    Truths,
}

/// How a call word is used.
#[derive(Clone, Copy)]
pub(crate) struct Usage {
    /// Whether a target and `=` stand in front.
    pub(crate) has_target: bool,
    /// What stands behind, word by word.
    pub(crate) kinds: &'static [Kind],
    pub(crate) further: Further,
}

/// Call words that are used alike, with spaces between: the words, whether a target and `=` stand in front, what has to
/// stand behind word by word, and what may stand behind that.
pub(crate) type Row = (&'static [u8], bool, &'static [Kind], Further);

/// All call words.
pub(crate) static ROWS: [Row; 13] = [
    (
        b"add_wuz sub_wuz mul_wuz div_wuz mod_wuz max_wuz min_wuz and_wuz ior_wuz xor_wuz lsh_wuz rsh_wuz \
          eql_wuz neq_wuz les_wuz leq_wuz grt_wuz geq_wuz and_wub ior_wub xor_wub add_sez mul_sez max_sez \
          min_sez and_sez ior_sez xor_sez and_seb ior_seb xor_seb add_rez mul_rez max_rez min_rez and_rez \
          ior_rez xor_rez and_reb ior_reb xor_reb dis_vez dis_veb smp_puz smp_pub bck_puz bck_pub pck_puz \
          pck_pub pkl_leb",
        true,
        &[Kind::Name, Kind::Name],
        Further::Nothing,
    ),
    (
        b"mov_fov mke_fov len_fos not_wuz cpy_wuz not_wub cpy_wub boo_wuz int_wub add_suz mul_suz max_suz \
          min_suz and_suz ior_suz xor_suz and_sub ior_sub xor_sub",
        true,
        &[Kind::Name],
        Further::Nothing,
    ),
    (
        b"get fre_fov len_fov add_ruz mul_ruz max_ruz min_ruz and_ruz ior_ruz xor_ruz and_rub ior_rub \
          xor_rub",
        false,
        &[Kind::Name],
        Further::Nothing,
    ),
    (
        b"sel_wuz sel_wub ind_lez smp_pez smp_peb pck_pez pck_peb",
        true,
        &[Kind::Name, Kind::Name, Kind::Name],
        Further::Nothing,
    ),
    (
        b"bck_pez bck_peb",
        true,
        &[Kind::Name, Kind::Name, Kind::Name, Kind::Name],
        Further::Nothing,
    ),
    (b"alo_foz", true, &[Kind::Number], Further::Nothing),
    (
        b"dis_vuz",
        true,
        &[Kind::Number, Kind::Number],
        Further::Nothing,
    ),
    (
        b"dis_vub",
        true,
        &[Kind::Truth, Kind::Number],
        Further::Nothing,
    ),
    (
        b"ind_luz",
        true,
        &[Kind::Number, Kind::Number, Kind::Number],
        Further::Nothing,
    ),
    (
        b"ext_vuz",
        false,
        &[Kind::Name, Kind::Number],
        Further::Nothing,
    ),
    (
        b"rep_vuz",
        true,
        &[Kind::Name, Kind::Number, Kind::Number],
        Further::Nothing,
    ),
    (b"z", true, &[], Further::Numbers),
    (b"b", true, &[], Further::Truths),
];

/// Whether a text is one of the words.
fn is_among(words: &[u8], text: &[u8]) -> bool
    ensures { result ≡ is_among text.now (words_of words.now) }
{
    let mut rest = words;
    while let Some((word, after)) = next_word(rest) {
        if word == text {
            return true;
        }
        rest = after;
    }
    false
}

/// How the first of the rows that has the word says that it is used.
#[tactic(auto, unfolding(crate::specs::Forms::form_among))]
fn usage_among(rows: &[Row], word: &[u8]) -> Option<Usage>
    ensures { option_map form_of_usage result ≡ form_among rows.now word.now }
{
    for (words, has_target, kinds, further) in rows {
        if is_among(words, word) {
            return Some(Usage {
                has_target: *has_target,
                kinds,
                further: *further,
            });
        }
    }
    None
}

/// How a call word is used.
pub(crate) fn usage_of(word: &[u8]) -> Option<Usage>
    ensures { option_map form_of_usage result ≡ option_map form_of_word (word_of word.now) }
{
    usage_among(&ROWS, word)
}

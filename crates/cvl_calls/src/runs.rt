//! Which calls run a kernel, which run the same one, and which have a step of their own.

ghost use Rattle.std.specs.Prelude.{◌≡◌, ◌↔◌, IsTrue};
ghost use Rattle.cvl_text.specs.Tasks.{task_of};
ghost use Rattle.cvl_calls.specs.Runs.{has_own_step, runs_kernel};

use cvl_text::{AskWord, Call, OneWord, Word, call_word};

/// Whether a call of this word runs a kernel. Every call runs one, except the forms of set, `get`, `mov_fov`, `fre_fov`,
/// `alo_foz`, `len_fov`, `mke_fov`, `len_fos`, `ext_vuz` and `rep_vuz`.
pub fn runs_kernel(word: Word) -> bool
    ensures { result ≡ runs_kernel word }
{
    match word {
        Word::SetInts => false,
        Word::SetBools => false,
        Word::Ask(word) => answers_by_kernel(word),
        Word::One(word) => makes_by_kernel(word),
        Word::Two(_) => true,
        Word::Three(_) => true,
        Word::BckSeg(_) => true,
        Word::Alo => false,
        Word::DisZ => true,
        Word::DisB => true,
        Word::Ind => true,
        Word::Ext => false,
        Word::Rep => false,
    }
}

fn answers_by_kernel(word: AskWord) -> bool
    ensures { result ≡ runs_kernel (Word.Ask word) }
{
    match word {
        AskWord::Get => false,
        AskWord::Free => false,
        AskWord::Len => false,
        AskWord::RedZ(_) => true,
        AskWord::RedB(_) => true,
    }
}

fn makes_by_kernel(word: OneWord) -> bool
    ensures { result ≡ runs_kernel (Word.One word) }
{
    match word {
        OneWord::Mov => false,
        OneWord::MakeSegs => false,
        OneWord::LenSegs => false,
        OneWord::MapZ1(_) => true,
        OneWord::MapB1(_) => true,
        OneWord::Boo => true,
        OneWord::IntOf => true,
        OneWord::ScanZ(_) => true,
        OneWord::ScanB(_) => true,
    }
}

/// Whether a call has a step of its own, by `step_own`: `MapZ2`, `MapZ1`, and `ScanOfZ` of all items.
#[inline(always)]
pub fn has_own_step(call: &Call) -> bool
    ensures { result ≡ has_own_step (task_of call.now).word }
{
    match call {
        Call::MapZ2 { .. } => true,
        Call::MapZ1 { .. } => true,
        Call::ScanOfZ { s: None, .. } => true,
        _ => false,
    }
}

/// Whether two calls run the same kernel: they have one call word, so the same operation on the same type of items and
/// both segments or both none, and a call of it runs a kernel.
#[tactic(auto, using(cvl_text::proofs::SameWords::words_Decide))]
pub fn alike(a: &Call, b: &Call) -> bool
    ensures { IsTrue result ↔ ((task_of a.now).word ≡ (task_of b.now).word) × IsTrue (runs_kernel (task_of a.now).word) }
{
    let first = call_word(a);
    first == call_word(b) && runs_kernel(first)
}

//! Truth values from the words that write them.

ghost use Rattle.std.specs.Prelude.{◌≡◌};
ghost use Rattle.cvl_text.specs.TruthValues.{truth_of};

/// The truth value that a word writes.
pub(crate) fn truth_of(word: &[u8]) -> Option<bool>
    ensures { result ≡ truth_of word.now }
{
    if word == b"T".as_slice() {
        Some(true)
    } else if word == b"F".as_slice() {
        Some(false)
    } else {
        None
    }
}

//! Laws of the definitions that the contracts cite: each function does nothing, and its contract is the law.

ghost use Rattle.cvl_text.specs.TaskTexts.{HasItsWords, ReadsBack, ReadsExactly};

/// A line reads as a call exactly where it has the words of the call's text, and that text reads back as the call.
pub fn lines_read_back()
    ensures exactly { ReadsExactly }
    ensures words { HasItsWords }
    ensures back { ReadsBack }
{}

//! Laws of the refusals. Each is the contract of a function that does nothing.

ghost use Rattle.std.specs.Prelude.{◌≡◌};
ghost use Rattle.lrc_refusals.specs.declared.refusal.InputRefusal.{InputRefusal};
ghost use Rattle.lrc_refusals.specs.Refusals.{refusal_line, input_refusal_words};

/// A line has one text of words: refusals with the same line have the same words.
pub fn a_line_has_its_words()
    ensures { (one other : InputRefusal) → refusal_line one ≡ refusal_line other → input_refusal_words one ≡ input_refusal_words other }
{}

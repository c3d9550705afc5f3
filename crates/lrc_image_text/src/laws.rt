//! Laws of the definitions. Each is the contract of a function that does nothing.

ghost use Rattle.std.specs.Prelude.{◌≡◌, ℕ, ◌+◌, ◌≤◌, ◌⊎◌, List, [], ◌∷◌, ◌++◌, drop};
ghost use Rattle.lrc_code.specs.declared.numbers.StripeNo.{StripeNo};
ghost use Rattle.lrc_code.specs.declared.numbers.Fragment.{Fragment};
ghost use Rattle.lrc_topology.specs.declared.NodeInfo.{NodeInfo};
ghost use Rattle.lrc_topology.specs.Nodes.{AreNodes};
ghost use Rattle.lrc_rules.specs.declared.entry.Entry.{Entry};
ghost use Rattle.lrc_rules.specs.States.{State};
ghost use Rattle.lrc_rules.specs.Leases.{grants};
ghost use Rattle.lrc_rules.specs.Goodness.{IsGood};
ghost use Rattle.lrc_rules.specs.Tidiness.{IsTidy};
ghost use Rattle.lrc_images.specs.declared.cause.Cause.{Cause};
ghost use Rattle.lrc_images.specs.declared.image.Image.{Image};
ghost use Rattle.lrc_images.specs.Causes.{most_grants, most_ticks, most_entries};
ghost use Rattle.lrc_images.specs.Rows.{IsImageOf};
ghost use Rattle.lrc_image_text.specs.Lines.{End};
ghost use Rattle.lrc_image_text.specs.Texts.{image_lines, image_text, lines_of_rows, row_line, IsWritten, HasImageLines, IsBadLine, HaveSameRows};

/// A text stands for one image: two images that can be read have the same rows if they have the
/// same text.
pub fn one_image()
    ensures { (i j : Image) → IsWritten i → IsWritten j → image_text i ≡ image_text j → HaveSameRows i j }
{}

/// A text has at most one bad line, and none if it is the text of an image that can be read.
pub fn one_bad_line()
    ensures one { (text : List ℕ) (m n : ℕ) → IsBadLine text m → IsBadLine text n → m ≡ n }
    ensures none { (i : Image) (n : ℕ) → IsWritten i → IsBadLine (image_text i) n → ⊥ }
{}

/// Each text consists of the lines of an image or has a bad line.
pub fn every_text()
    ensures { (text : List ℕ) → HasImageLines text ⊎ ((n : ℕ) × IsBadLine text n) }
{}

/// Each line of the image of a good and tidy state over the nodes of a store can be read, if no count of grants, the clock
/// and the number of entries are above the most with which a book can begin.
pub fn images_of_states_are_written()
    ensures { (nodes : List NodeInfo) (past : List Entry) (st : State) (before : ℕ) (i : Image)
        → AreNodes nodes → IsGood nodes past st → IsTidy nodes st
        → ((s : StripeNo) (f : Fragment) → grants past s f ≤ most_grants) → st.clock ≤ most_ticks → before ≤ most_entries
        → IsImageOf nodes past st before i → IsWritten i }
{}

/// A row at a position from 1 on has a line of its own: the one of the number `row_line`. From it on
/// a text has the lines of the rows from that position on, and the last line.
pub fn rows_have_lines()
    ensures { (i : Image) (n : ℕ) (c : Cause) (before : ℕ) → row_line i.upgrading (n + 1) c ≡ before + 1
        → drop before (image_lines i) ≡ drop n (lines_of_rows i ++ End ∷ []) }
{}

//! Laws of the round trip from a book to a text and back. The functions do nothing. Their contracts are theorems about
//! what `image_text` and `begin` return.

ghost use Rattle.std.specs.Prelude.{◌≡◌, ◌↔◌, ◌⊎◌, ◌+◌, ◌++◌, ℕ, List, length};
ghost use Rattle.lrc_topology.specs.Documents.{IsTopologyOf};
ghost use Rattle.lrc_topology.specs.declared.error.TopologyError.TheVariants as topology;
ghost use Rattle.lrc_rules.specs.Alike.{AreAlike};
ghost use Rattle.lrc_rules.specs.Futures.{HaveSameGrants};
ghost use Rattle.lrc_image_text.specs.Texts.{IsBadLine};
ghost use Rattle.lrc_image_text.specs.declared.error.ImageTextError.TheVariants as text_error;
ghost use Rattle.lrc_book.specs.Books.{BookView, state_of, IsSpent, IsBook};
ghost use Rattle.lrc_book.specs.SameLooks.{HaveSameLooks};
ghost use Rattle.lrc_openings.specs.Begun.{IsBegun};
ghost use Rattle.lrc_openings.specs.ImageTexts.{IsTextOfBook};
ghost use Rattle.lrc_openings.specs.Unopened.{IsUnopened};
ghost use Rattle.lrc_openings.specs.declared.error.OpenError.{OpenError};
ghost use Rattle.lrc_openings.specs.declared.error.OpenError.TheVariants as error;

/// If a book is not spent, no line of the text of its image is bad. Over its nodes a book begins in the text, and
/// `begin` refuses it only for memory.
pub fn texts_of_books_are_taken()
    ensures lines { (b : BookView) (text : List ℕ) (n : ℕ)
        → IsBook b → ¬ IsSpent b → IsTextOfBook b text → ¬ IsBadLine text n }
    ensures begun { (b : BookView) (nodes text : List ℕ)
        → IsBook b → ¬ IsSpent b → IsTextOfBook b text → IsTopologyOf nodes b.nodes
        → (c : BookView) × IsBegun nodes text c }
    ensures refused { (b : BookView) (nodes text : List ℕ) (e : OpenError)
        → IsBook b → ¬ IsSpent b → IsTextOfBook b text → IsTopologyOf nodes b.nodes → IsUnopened nodes text e
        → (e ≡ error.Nodes topology.OutOfMemory) ⊎ ((e ≡ error.Text text_error.OutOfMemory) ⊎ (e ≡ error.OutOfMemory)) }
{}

/// A book that begins in the text of another book's image, over its nodes, has an alike state, so every look returns
/// the same. As many leases of each fragment were granted before it, and the store has as many entries. The text of its
/// image is the text that it began in.
pub fn texts_lose_nothing()
    ensures alike { (b c : BookView) (nodes text : List ℕ)
        → IsBook b → ¬ IsSpent b → IsTextOfBook b text → IsBegun nodes text c → c.nodes ≡ b.nodes
        → AreAlike (state_of b) (state_of c) }
    ensures looks { (b c : BookView) (nodes text : List ℕ)
        → IsBook b → ¬ IsSpent b → IsTextOfBook b text → IsBegun nodes text c → c.nodes ≡ b.nodes
        → HaveSameLooks b.nodes (state_of b) (state_of c) }
    ensures counts { (b c : BookView) (nodes text : List ℕ)
        → IsBook b → ¬ IsSpent b → IsTextOfBook b text → IsBegun nodes text c → c.nodes ≡ b.nodes
        → HaveSameGrants (b.base.past ++ b.history) (c.base.past ++ c.history) }
    ensures before { (b c : BookView) (nodes text : List ℕ)
        → IsBook b → ¬ IsSpent b → IsTextOfBook b text → IsBegun nodes text c → c.nodes ≡ b.nodes
        → c.before ≡ b.before + length b.history }
    ensures text { (b c : BookView) (nodes text other : List ℕ)
        → IsBook b → ¬ IsSpent b → IsTextOfBook b text → IsBegun nodes text c → c.nodes ≡ b.nodes
        → IsTextOfBook c other ↔ (other ≡ text) }
{}

/// A book that begins in a text is not spent, so its image is refused only for memory. The text of its image is the
/// text that it began in, whoever wrote that.
pub fn texts_are_written_again()
    ensures free { (c : BookView) (nodes text : List ℕ)
        → IsBegun nodes text c → ¬ IsSpent c }
    ensures text { (c : BookView) (nodes text other : List ℕ)
        → IsBegun nodes text c → IsTextOfBook c other → other ≡ text }
{}

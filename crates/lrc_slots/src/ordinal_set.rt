ghost use Rattle.std.specs.Prelude.{◌≡◌, ℕ, ◌+◌, ◌*◌, ◌/◌, ◌<◌, true, false, length, get_or, replicate, IsTrue, IsFalse, slice_set};
ghost use Rattle.lrc_slots.specs.OrdinalWords.{FindsOutsideBoth};

use lrc_bits::BitSet;
use std::marker::Model;

/// A set of nodes, by ordinal, with an index of its words: a search skips the empty ones.
#[derive(Drop)]
pub(crate) struct OrdinalSet {
    ordinals: BitSet<8>,
    /// The words that have an ordinal.
    words: BitSet<1>,
}

impl Model for OrdinalSet {
    ghost use Rattle.std.specs.Prelude.{List, Bool};
    ghost use Rattle.lrc_slots.specs.OrdinalWords.{AreOrdinalWords};

    ghost Value = { List Bool };

    ghost view = { λ s. s.ordinals };

    ghost invariant = { λ s. AreOrdinalWords s.ordinals s.words };
}

impl OrdinalSet {
    /// Returns the empty set.
    pub(crate) fn new() -> OrdinalSet
        ensures { result ≡ replicate 512 false }
    {
        OrdinalSet {
            ordinals: BitSet::new(),
            words: BitSet::new(),
        }
    }

    /// Reports whether the set has an ordinal in the same word as this one.
    #[inline(always)]
    pub(crate) fn has_near(&self, ordinal: usize) -> bool
        requires { ordinal < 512 }
        ensures some { IsTrue result → (k : ℕ) × (k / 64 ≡ ordinal / 64) × (get_or self.now k false ≡ true) }
        ensures none { IsFalse result → (k : ℕ) → k / 64 ≡ ordinal / 64 → get_or self.now k false ≡ false }
    {
        self.ordinals.has_near(ordinal)
    }

    /// Adds an ordinal.
    #[inline(always)]
    pub(crate) fn insert(&mut self, ordinal: usize)
        requires { ordinal < 512 }
        ensures { self.new ≡ slice_set self.old ordinal true }
    {
        if !self.ordinals.has_near(ordinal) {
            self.words.insert(ordinal / 64);
        }
        self.ordinals.insert(ordinal);
    }

    /// Removes an ordinal, and reports whether the set is empty then.
    #[inline(always)]
    pub(crate) fn remove(&mut self, ordinal: usize) -> bool
        requires { ordinal < 512 }
        ensures removed { self.new ≡ slice_set self.old ordinal false }
        ensures some { IsFalse result → (r : ℕ) × (get_or self.new r false ≡ true) }
        ensures none { IsTrue result → (r : ℕ) → get_or self.new r false ≡ false }
    {
        self.ordinals.remove(ordinal);
        if self.ordinals.has_near(ordinal) {
            return false;
        }
        self.words.remove(ordinal / 64);
        self.words.first().is_none()
    }

    /// Returns the lowest ordinal that is in neither mask. Skips words without an ordinal.
    #[inline(always)]
    pub(crate) fn first_outside_both(&self, mask: &BitSet<8>, other: &BitSet<8>) -> Option<usize>
        ensures { FindsOutsideBoth self.now mask.now other.now result }
    {
        let mut left = self.words.copy();
        while let Some(word) = left.pop_first() {
            if let Some(ordinal) = self.ordinals.first_of_word_outside_both(word, mask, other) {
                return Some(ordinal);
            }
        }
        None
    }

    /// Returns the set of the words that have an ordinal.
    #[inline(always)]
    pub(crate) fn words(&self) -> BitSet<1>
        ensures long { length result ≡ 64 }
        ensures low { (word : ℕ) → get_or result word false ≡ true → word < 8 }
        ensures covered { (ordinal : ℕ) → get_or self.now ordinal false ≡ true → get_or result (ordinal / 64) false ≡ true }
    {
        self.words.copy()
    }

    /// Returns the ordinals of one word, counted from the start of the word.
    #[inline(always)]
    pub(crate) fn of_word(&self, word: usize) -> BitSet<1>
        requires { word < 8 }
        ensures long { length result ≡ 64 }
        ensures same { (k : ℕ) → k < 64 → get_or result k false ≡ get_or self.now (64 * word + k) false }
    {
        self.ordinals.of_word(word)
    }

    /// Returns the ordinals as a plain set.
    #[inline(always)]
    pub(crate) fn ordinals(&self) -> &BitSet<8>
        ensures long { length result.now ≡ 512 }
        ensures same { result.now ≡ self.now }
    {
        &self.ordinals
    }
}

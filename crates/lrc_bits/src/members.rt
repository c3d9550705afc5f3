ghost use Rattle.std.specs.Prelude.{◌≡◌, ◌≤◌, ◌*◌, ◌^◌, false, length, slice_set, IfSome, IfNone};
ghost use Rattle.lrc_bits.specs.Flags.{FindsFrom, flags};

use std::marker::Model;

/// An iterator over the numbers of a set, in ascending order. Contracts see it as the set of the numbers that are
/// left.
#[derive(Drop)]
pub struct Members<'a> {
    words: &'a [u64],
    /// The index of the word that is being read.
    index: usize,
    /// The bits of this word that are left.
    rest: u64,
}

impl<'a> Model for Members<'a> {
    ghost use Rattle.std.specs.Prelude.{List, Bool};
    ghost use Rattle.lrc_bits.specs.Flags.{flags, words_left};

    ghost Value = { List Bool };

    ghost view = { λ m. flags (words_left m.words.now m.index m.rest) };

    ghost use Rattle.std.specs.Prelude.{◌<◌, ◌≤◌, ◌*◌, ◌^◌, length};

    ghost invariant = { λ m. record { few : 64 * length m.words.now ≤ 2 ^ 32; within : m.index < length m.words.now } };
}

impl<'a> Members<'a> {
    /// Returns an iterator over the set with these words.
    pub(crate) fn new(words: &'a [u64]) -> Members<'a>
        requires few { 64 * length words.now ≤ 2 ^ 32 }
        requires some { 1 ≤ length words.now }
        ensures { result ≡ flags words.now }
    {
        Members {
            words,
            index: 0,
            rest: words[0],
        }
    }

    /// Returns the smallest number that is left, and removes it from the iterator.
    #[inline(always)] // keeps the word that is being read in a register
    pub fn next_member(&mut self) -> Option<usize>
        ensures first { FindsFrom self.old 0 result }
        ensures left { IfSome result (λ k. self.new ≡ slice_set self.old k false) }
        ensures none { IfNone result (self.new ≡ self.old) }
    {
        let words = self.words;
        let mut index = self.index;
        let mut rest = self.rest;
        while rest == 0 {
            index += 1;
            rest = *words.get(index)?;
        }
        let bit = rest.trailing_zeros() as usize;
        self.index = index;
        self.rest = rest & !(1 << bit);
        Some(index * 64 + bit)
    }
}

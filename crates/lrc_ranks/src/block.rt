ghost use Rattle.std.specs.Prelude.{◌≡◌, ℕ, ◌<◌, ◌%◌, ◌&&◌, false, nat_eq, length, get_or, if◌then◌else◌};
ghost use Rattle.lrc_code.specs.Losses.{bits_set};
ghost use Rattle.lrc_code.specs.declared.codes.Class.TheVariants.{A, B, G};
ghost use Rattle.lrc_code.specs.declared.numbers.StripeNo.{StripeNo as AnyStripe};
ghost use Rattle.lrc_ranks.specs.Blocks.{IsIn, misses_in, count_in};
ghost use Rattle.lrc_ranks.specs.Counts.{IsAtLeast, number_at};
ghost use Rattle.lrc_ranks.specs.Missing.{rank_with};
ghost use Rattle.lrc_ranks.specs.Sets.{has};

use crate::counts::{self, AtLeast, Numbers};
use crate::fragment_sets::FragmentSets;
use crate::planes::Planes;

/// The stripes of a block of 64 numbers. What is told of each of them is a word: bit k is of stripe `64 * index + k`.
#[derive(Clone, Copy)]
pub(crate) struct Block<'a> {
    pub(crate) planes: &'a Planes,
    /// Further missing fragments.
    pub(crate) more: &'a FragmentSets,
    pub(crate) index: usize,
}

impl<'a> Block<'a> {
    /// Returns the stripes that miss a fragment.
    #[inline(always)]
    fn missing(&self, fragment: usize) -> u64
        requires known { fragment < 16 }
        requires within { self.now.index < 64 }
        ensures { (s : AnyStripe) → IsIn self.now s → bits_set result (s.value % 64) ≡ misses_in self.now s fragment }
    {
        self.planes.missing.word(fragment, self.index) | self.more.word(fragment, self.index)
    }

    /// Returns the stripes of the code `Wide` that miss a fragment.
    #[inline(always)]
    fn wide(&self, fragment: usize) -> u64
        requires known { fragment < 16 }
        requires within { self.now.index < 64 }
        ensures { (s : AnyStripe) → IsIn self.now s → bits_set result (s.value % 64) ≡ (if has self.now.planes.now.narrow s then false else misses_in self.now s fragment) }
    {
        self.missing(fragment) & !self.planes.narrow.word(self.index)
    }

    /// Returns the stripes that miss a fragment: this one in the code `Wide`, the other in the code `Narrow`.
    #[inline(always)]
    fn either(&self, wide: usize, narrow: usize) -> u64
        requires known { wide < 16 }
        requires also { narrow < 16 }
        requires within { self.now.index < 64 }
        ensures { (s : AnyStripe) → IsIn self.now s → bits_set result (s.value % 64) ≡ (if has self.now.planes.now.narrow s then misses_in self.now s narrow else misses_in self.now s wide) }
    {
        self.wide(wide) | (self.missing(narrow) & self.planes.narrow.word(self.index))
    }

    /// Returns the number of missing fragments of the class A.
    #[inline(always)]
    fn in_a(&self) -> Numbers
        requires { self.now.index < 64 }
        ensures { (s : AnyStripe) → IsIn self.now s → number_at result (s.value % 64) ≡ count_in self.now A s }
    {
        Numbers::count([
            self.missing(0),
            self.missing(1),
            self.missing(2),
            self.either(3, 6),
            self.wide(4),
            self.wide(5),
            self.wide(12),
        ])
    }

    /// Returns the number of missing fragments of the class B.
    #[inline(always)]
    fn in_b(&self) -> Numbers
        requires { self.now.index < 64 }
        ensures { (s : AnyStripe) → IsIn self.now s → number_at result (s.value % 64) ≡ count_in self.now B s }
    {
        Numbers::count([
            self.either(6, 3),
            self.missing(7),
            self.either(8, 4),
            self.either(9, 5),
            self.wide(10),
            self.wide(11),
            self.wide(13),
        ])
    }

    /// Returns the number of missing fragments of the class G.
    #[inline(always)]
    fn in_g(&self) -> AtLeast
        requires { self.now.index < 64 }
        ensures { (s : AnyStripe) → IsIn self.now s → IsAtLeast result (s.value % 64) (count_in self.now G s) }
    {
        AtLeast::count(self.either(14, 8), self.either(15, 9))
    }

    /// Returns the stripes of each rank among those that have work.
    #[inline(always)]
    pub(crate) fn ranks(&self) -> [u64; 5]
        requires { self.now.index < 64 }
        ensures long { length result ≡ 5 }
        ensures ranks { (s : AnyStripe) (rank : ℕ) → IsIn self.now s → bits_set (get_or result rank 0) (s.value % 64) ≡ (has self.now.planes.now.work s && nat_eq (rank_with self.now.planes.now.narrow self.now.planes.now.missing self.now.more.now s) rank) }
    {
        let in_a = self.in_a();
        let in_b = self.in_b();
        let local = in_a.any() | in_b.any();
        let excess = in_a.less_one().plus(in_b.less_one()).plus(self.in_g());
        let work = self.planes.work.word(self.index);
        counts::rank_words(work, local, excess)
    }
}

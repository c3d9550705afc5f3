//! Small numbers for each of 64 stripes, as words: bit k of each word is of the same stripe.

ghost use Rattle.std.specs.Prelude.{◌≡◌, ℕ, ◌+◌, ◌-◌, ◌*◌, ◌<◌, ◌≤◌, ◌&&◌, Bool, nat_eq, nat_lt, length, get_or, sum_by};
ghost use Rattle.std.specs.Int.{bit_at};
ghost use Rattle.lrc_code.specs.Losses.{bits_set};
ghost use Rattle.lrc_ranks.specs.Counts.{IsAtLeast, number_at, rank_by_excess};

/// A number from 0 to 7 for each stripe, in binary.
#[derive(Clone, Copy)]
pub(crate) struct Numbers {
    pub(crate) ones: u64,
    pub(crate) twos: u64,
    pub(crate) fours: u64,
}

/// For each stripe whether its number is at least 1, 2 and 3.
#[derive(Clone, Copy)]
pub(crate) struct AtLeast {
    pub(crate) one: u64,
    pub(crate) two: u64,
    pub(crate) three: u64,
}

/// Returns the words `sum` and `carry` of a full adder: the three bits of a stripe add up to `sum + 2 * carry`.
#[inline(always)]
fn full_adder(a: u64, b: u64, c: u64) -> (u64, u64)
    ensures { (k : ℕ) → bit_at result.0 k + 2 * bit_at result.1 k ≡ bit_at a k + bit_at b k + bit_at c k }
{
    let half = a ^ b;
    (half ^ c, (a & b) | (half & c))
}

impl Numbers {
    /// Returns the number of words that have a stripe's bit.
    #[inline(always)]
    pub(crate) fn count(words: [u64; 7]) -> Numbers
        requires { length words ≡ 7 }
        ensures { (k : ℕ) → number_at result k ≡ sum_by (λ w. bit_at w k) words }
    {
        let [a, b, c, d, e, f, g] = words;
        let (low, low_carry) = full_adder(a, b, c);
        let (high, high_carry) = full_adder(d, e, f);
        let (ones, carry) = full_adder(low, high, g);
        let (twos, fours) = full_adder(low_carry, high_carry, carry);
        Numbers { ones, twos, fours }
    }

    /// Reports which numbers are not 0.
    #[inline(always)]
    pub(crate) fn any(self) -> u64
        ensures { (k : ℕ) → bits_set result k ≡ nat_lt 0 (number_at self k) }
    {
        self.ones | self.twos | self.fours
    }

    /// Returns the numbers less 1, and 0 for 0.
    #[inline(always)]
    pub(crate) fn less_one(self) -> AtLeast
        ensures { (k : ℕ) → IsAtLeast result k (number_at self k - 1) }
    {
        AtLeast {
            one: self.twos | self.fours,
            two: self.fours | (self.ones & self.twos),
            three: self.fours,
        }
    }
}

impl AtLeast {
    /// Returns the number of the two words that have a stripe's bit.
    #[inline(always)]
    pub(crate) fn count(a: u64, b: u64) -> AtLeast
        ensures { (k : ℕ) → IsAtLeast result k (bit_at a k + bit_at b k) }
    {
        AtLeast {
            one: a | b,
            two: a & b,
            three: 0,
        }
    }

    /// Returns the sums.
    #[inline(always)]
    pub(crate) fn plus(self, other: AtLeast) -> AtLeast
        ensures { (k m n : ℕ) → IsAtLeast self k m → IsAtLeast other k n → IsAtLeast result k (m + n) }
    {
        AtLeast {
            one: self.one | other.one,
            two: self.two | other.two | (self.one & other.one),
            three: self.three | other.three | (self.two & other.one) | (self.one & other.two),
        }
    }
}

/// Returns the stripes of each rank among those with work, by their excess of losses and whether a local group has a
/// loss.
#[inline(always)]
pub(crate) fn rank_words(work: u64, local: u64, excess: AtLeast) -> [u64; 5]
    ensures long { length result ≡ 5 }
    ensures ranks { (k rank n : ℕ) → k < 64 → IsAtLeast excess k n → bits_set (get_or result rank 0) k ≡ (bits_set work k && nat_eq (rank_by_excess (bits_set local k) n) rank) }
{
    let with_local = work & local;
    let others = work & !local;
    let none = !excess.one;
    let one = excess.one & !excess.two;
    let two = excess.two & !excess.three;
    [
        with_local & two,
        (with_local & one) | (others & two),
        (with_local & none) | (others & one),
        others & none,
        work & excess.three,
    ]
}

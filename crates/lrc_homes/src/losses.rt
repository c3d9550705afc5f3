ghost use Rattle.std.specs.Prelude.{◌≡◌, ◌<◌, ◌≤◌, IfSome};
ghost use Rattle.lrc_code.specs.Losses.{bits_set, margin_of};
ghost use Rattle.lrc_terms.specs.Levels.{level_by};
ghost use Rattle.lrc_homes.specs.Masks.{AreAll, IsPut, level_of, rank_of, work_rank, risk_rank};

use crate::masks;
use lrc_code::{Code, Fragment, LossMask};
use lrc_terms::Level;

/// The code of a stripe, and its fragments that have no home, that are missing, and that need a lease.
#[derive(Clone, Copy)]
pub struct Losses {
    pub code: Code,
    pub homeless: LossMask,
    pub missing: LossMask,
    pub needs: LossMask,
}

impl Losses {
    /// The losses of a stripe of the code without homes: every fragment of the code is in each mask.
    pub fn all(code: Code) -> Losses
        ensures code { result.code ≡ code }
        ensures all { AreAll code result }
    {
        let all = LossMask::all_of(code);
        Losses {
            code,
            homeless: all,
            missing: all,
            needs: all,
        }
    }

    /// The losses of a stripe of the code with all homes on online nodes that do not drain: each mask is empty.
    pub fn none(code: Code) -> Losses
        ensures code { result.code ≡ code }
        ensures homeless { result.homeless.bits ≡ 0 }
        ensures missing { result.missing.bits ≡ 0 }
        ensures needs { result.needs.bits ≡ 0 }
    {
        let none = LossMask::from_bits(0);
        Losses {
            code,
            homeless: none,
            missing: none,
            needs: none,
        }
    }

    /// The losses after one fragment is set in each mask or cleared.
    pub fn put(
        self,
        fragment: Fragment,
        is_homeless: bool,
        is_missing: bool,
        is_to_move: bool,
    ) -> Losses
        ensures code { result.code ≡ self.code }
        ensures homeless { IsPut fragment.value is_homeless self.homeless result.homeless }
        ensures missing { IsPut fragment.value is_missing self.missing result.missing }
        ensures needs { IsPut fragment.value is_to_move self.needs result.needs }
    {
        let one = LossMask::from_bits(0).with(fragment);
        Losses {
            code: self.code,
            homeless: masks::put(self.homeless, one, is_homeless),
            missing: masks::put(self.missing, one, is_missing),
            needs: masks::put(self.needs, one, is_to_move),
        }
    }

    /// The fragments that are missing.
    pub fn missing(self) -> LossMask
        ensures value { result ≡ self.missing }
        ensures few { result.bits < 65536 }
    {
        self.missing
    }

    /// The fragments that need a lease.
    pub fn needs(self) -> LossMask
        ensures value { result ≡ self.needs }
        ensures few { result.bits < 65536 }
    {
        self.needs
    }

    /// The level of the stripe.
    #[tactic(auto, unfolding(crate::specs::Masks::level_of))]
    pub fn level(self) -> Level
        ensures { result ≡ level_of self }
    {
        level_by(self.code, self.homeless, self.missing)
    }

    /// The rank; `None` without work.
    pub fn work_rank(self) -> Option<u8>
        ensures value { result ≡ work_rank self }
        ensures few { IfSome result (λ k. k ≤ 4) }
    {
        if self.needs.bits() == 0 {
            None
        } else {
            Some(self.rank())
        }
    }

    /// The rank; `None` if no fragment is missing.
    pub fn risk_rank(self) -> Option<u8>
        ensures value { result ≡ risk_rank self }
        ensures few { IfSome result (λ k. k ≤ 4) }
    {
        if self.missing.bits() == 0 {
            None
        } else {
            Some(self.rank())
        }
    }

    /// The margin, 0 to 3; 4 if the missing fragments are not recoverable.
    fn rank(self) -> u8
        ensures value { result ≡ rank_of self }
        ensures few { result ≤ 4 }
    {
        margin_in(self.code, self.missing).unwrap_or(4)
    }
}

/// The margin of a stripe of the code with these missing fragments; `None` if they are not recoverable.
fn margin_in(code: Code, missing: LossMask) -> Option<u8>
    ensures value { result ≡ margin_of code (bits_set missing.bits) }
    ensures few { IfSome result (λ t. t ≤ 3) }
{
    // The masks of the classes are constants in each branch.
    match code {
        Code::Wide => missing.margin_in(Code::Wide),
        Code::Narrow => missing.margin_in(Code::Narrow),
    }
}

/// The level of a stripe of the code with these homeless and these missing fragments.
pub fn level_by(code: Code, homeless: LossMask, missing: LossMask) -> Level
    ensures { result ≡ level_by code (bits_set homeless.bits) (bits_set missing.bits) }
{
    if !homeless.recoverable_in(code) {
        return Level::Lost;
    }
    match missing.margin_in(code) {
        None => Level::Unavailable,
        // any loss makes the margin smaller
        Some(3) => Level::Whole,
        Some(margin) => Level::AtRisk(margin),
    }
}

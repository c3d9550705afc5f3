ghost use Rattle.std.specs.Prelude.{◌≡◌, ◌<◌};
ghost use Rattle.lrc_field.specs.Weights.{number_of, in_equation, value_at, scaled};

use crate::field::multiply;
use lrc_code::{Code, Fragment};

/// A weight for the equation of each parity: that the parity, and the data times their coefficients in it, add up to 0.
#[derive(Clone, Copy)]
pub struct Weights {
    pub local_a: u8,
    pub local_b: u8,
    pub global: u8,
    pub square: u8,
}

/// A parity of a stripe, which its equation defines.
#[derive(Clone, Copy)]
pub enum Parity {
    LocalA,
    LocalB,
    Global,
    Square,
}

/// The coefficient of each fragment in the equation of each parity, by the numbers of the parity and of the fragment.
static WIDE: [[u8; 16]; 4] = [
    [1, 1, 1, 1, 1, 1, 0, 0, 0, 0, 0, 0, 1, 0, 0, 0],
    [0, 0, 0, 0, 0, 0, 1, 1, 1, 1, 1, 1, 0, 1, 0, 0],
    [1, 2, 3, 4, 5, 6, 16, 32, 48, 64, 80, 96, 0, 0, 1, 0],
    [1, 4, 5, 16, 17, 20, 29, 116, 105, 205, 208, 185, 0, 0, 0, 1],
];

/// The same of the code `Narrow`, with 0 for the fragments that it lacks.
static NARROW: [[u8; 16]; 4] = [
    [1, 1, 1, 0, 0, 0, 1, 0, 0, 0, 0, 0, 0, 0, 0, 0],
    [0, 0, 0, 1, 1, 1, 0, 1, 0, 0, 0, 0, 0, 0, 0, 0],
    [1, 2, 3, 16, 32, 48, 0, 0, 1, 0, 0, 0, 0, 0, 0, 0],
    [1, 4, 5, 29, 116, 105, 0, 0, 0, 1, 0, 0, 0, 0, 0, 0],
];

impl Parity {
    /// Returns the number of the parity, from 0.
    fn number(self) -> usize
        ensures value { result ≡ number_of self }
        ensures few { result < 4 }
    {
        match self {
            Parity::LocalA => 0,
            Parity::LocalB => 1,
            Parity::Global => 2,
            Parity::Square => 3,
        }
    }

    /// Returns the coefficient of the fragment in the equation of the parity, 0 of a fragment that the code lacks.
    pub(crate) fn coefficient(self, code: Code, fragment: Fragment) -> u8
        ensures { result ≡ in_equation code (number_of self) fragment.value }
    {
        match code {
            Code::Wide => WIDE[self.number()][fragment.value as usize],
            Code::Narrow => NARROW[self.number()][fragment.value as usize],
        }
    }
}

impl Weights {
    /// Returns the coefficient of the fragment in the sum of the equations, each times its weight.
    pub(crate) fn at(self, code: Code, fragment: Fragment) -> u8
        ensures { result ≡ value_at code self fragment.value }
    {
        let first = multiply(self.local_a, Parity::LocalA.coefficient(code, fragment));
        let second = multiply(self.local_b, Parity::LocalB.coefficient(code, fragment));
        let third = multiply(self.global, Parity::Global.coefficient(code, fragment));
        let fourth = multiply(self.square, Parity::Square.coefficient(code, fragment));
        first ^ (second ^ (third ^ fourth))
    }

    /// Returns each weight times an element.
    pub(crate) fn times(self, element: u8) -> Weights
        ensures { result ≡ scaled element self }
    {
        Weights {
            local_a: multiply(element, self.local_a),
            local_b: multiply(element, self.local_b),
            global: multiply(element, self.global),
            square: multiply(element, self.square),
        }
    }
}

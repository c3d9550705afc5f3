ghost use Rattle.std.specs.Prelude.{◌≡◌, ◌+◌, ◌<◌, ◌≤◌};
ghost use Rattle.lrc_rules.specs.Leases.{term};

/// The number of ticks that a lease lasts.
const TERM: u32 = 3;

/// The number of ticks so far. It is at most 4,294,967,292, so that the end of a lease that is granted now is a `u32`.
#[derive(Clone, Copy)]
pub struct Clock {
    pub value: u32,
    pub ghost small: { value ≤ 4294967292 },
}

impl Clock {
    /// Before the first tick.
    pub(crate) fn new() -> Clock
        ensures { result.value ≡ 0 }
    {
        Clock { value: 0 }
    }

    /// After this number of ticks.
    pub fn at(value: u32) -> Clock
        requires { value ≤ 4294967292 }
        ensures { result.value ≡ value }
    {
        Clock { value }
    }

    /// The number of ticks.
    pub fn get(self) -> u32
        ensures { result ≡ self.value }
    {
        self.value
    }

    /// The number of ticks after the next one.
    pub(crate) fn next(self) -> u32
        ensures { result ≡ self.value + 1 }
    {
        self.value + 1
    }

    /// The end of a lease that is granted now.
    pub fn end_of_term(self) -> u32
        ensures { result ≡ self.value + term }
    {
        self.value + TERM
    }

    /// Counts one tick.
    pub(crate) fn advance(&mut self)
        requires { self.old.value < 4294967292 }
        ensures { self.new.value ≡ self.old.value + 1 }
    {
        *self = Clock {
            value: self.value + 1,
        };
    }
}

//! Digits of small numbers, and digits that the numbers of many lines share.

ghost use Rattle.std.specs.Prelude.{◌≡◌, ◌+◌, ◌/◌, ◌%◌, ◌^◌, ◌<◌, ◌≤◌, ◌∷◌, ◌++◌, length, drop, decimal};

use crate::parts::write_words;

/// The two digits of each number below 100.
static PAIRS: [[u8; 2]; 100] = [
    *b"00", *b"01", *b"02", *b"03", *b"04", *b"05", *b"06", *b"07", *b"08", *b"09", *b"10", *b"11",
    *b"12", *b"13", *b"14", *b"15", *b"16", *b"17", *b"18", *b"19", *b"20", *b"21", *b"22", *b"23",
    *b"24", *b"25", *b"26", *b"27", *b"28", *b"29", *b"30", *b"31", *b"32", *b"33", *b"34", *b"35",
    *b"36", *b"37", *b"38", *b"39", *b"40", *b"41", *b"42", *b"43", *b"44", *b"45", *b"46", *b"47",
    *b"48", *b"49", *b"50", *b"51", *b"52", *b"53", *b"54", *b"55", *b"56", *b"57", *b"58", *b"59",
    *b"60", *b"61", *b"62", *b"63", *b"64", *b"65", *b"66", *b"67", *b"68", *b"69", *b"70", *b"71",
    *b"72", *b"73", *b"74", *b"75", *b"76", *b"77", *b"78", *b"79", *b"80", *b"81", *b"82", *b"83",
    *b"84", *b"85", *b"86", *b"87", *b"88", *b"89", *b"90", *b"91", *b"92", *b"93", *b"94", *b"95",
    *b"96", *b"97", *b"98", *b"99",
];

// For each `count hundreds tens`: the count and the three digits of the ten numbers with these hundreds and tens.
macro_rules! of_each_ten {
    ($($count:literal $hundreds:literal $tens:literal),*) => {
        [$(
            [$count, $hundreds, $tens, b'0'], [$count, $hundreds, $tens, b'1'], [$count, $hundreds, $tens, b'2'], [$count, $hundreds, $tens, b'3'], [$count, $hundreds, $tens, b'4'],
            [$count, $hundreds, $tens, b'5'], [$count, $hundreds, $tens, b'6'], [$count, $hundreds, $tens, b'7'], [$count, $hundreds, $tens, b'8'], [$count, $hundreds, $tens, b'9']
        ),*]
    };
}

/// For each number below 1,000: its count of digits, then its three digits with leading zeros.
static NUMERALS: [[u8; 4]; 1000] = of_each_ten!(
    1 b'0' b'0', 2 b'0' b'1', 2 b'0' b'2', 2 b'0' b'3', 2 b'0' b'4', 2 b'0' b'5', 2 b'0' b'6', 2 b'0' b'7', 2 b'0' b'8', 2 b'0' b'9',
    3 b'1' b'0', 3 b'1' b'1', 3 b'1' b'2', 3 b'1' b'3', 3 b'1' b'4', 3 b'1' b'5', 3 b'1' b'6', 3 b'1' b'7', 3 b'1' b'8', 3 b'1' b'9',
    3 b'2' b'0', 3 b'2' b'1', 3 b'2' b'2', 3 b'2' b'3', 3 b'2' b'4', 3 b'2' b'5', 3 b'2' b'6', 3 b'2' b'7', 3 b'2' b'8', 3 b'2' b'9',
    3 b'3' b'0', 3 b'3' b'1', 3 b'3' b'2', 3 b'3' b'3', 3 b'3' b'4', 3 b'3' b'5', 3 b'3' b'6', 3 b'3' b'7', 3 b'3' b'8', 3 b'3' b'9',
    3 b'4' b'0', 3 b'4' b'1', 3 b'4' b'2', 3 b'4' b'3', 3 b'4' b'4', 3 b'4' b'5', 3 b'4' b'6', 3 b'4' b'7', 3 b'4' b'8', 3 b'4' b'9',
    3 b'5' b'0', 3 b'5' b'1', 3 b'5' b'2', 3 b'5' b'3', 3 b'5' b'4', 3 b'5' b'5', 3 b'5' b'6', 3 b'5' b'7', 3 b'5' b'8', 3 b'5' b'9',
    3 b'6' b'0', 3 b'6' b'1', 3 b'6' b'2', 3 b'6' b'3', 3 b'6' b'4', 3 b'6' b'5', 3 b'6' b'6', 3 b'6' b'7', 3 b'6' b'8', 3 b'6' b'9',
    3 b'7' b'0', 3 b'7' b'1', 3 b'7' b'2', 3 b'7' b'3', 3 b'7' b'4', 3 b'7' b'5', 3 b'7' b'6', 3 b'7' b'7', 3 b'7' b'8', 3 b'7' b'9',
    3 b'8' b'0', 3 b'8' b'1', 3 b'8' b'2', 3 b'8' b'3', 3 b'8' b'4', 3 b'8' b'5', 3 b'8' b'6', 3 b'8' b'7', 3 b'8' b'8', 3 b'8' b'9',
    3 b'9' b'0', 3 b'9' b'1', 3 b'9' b'2', 3 b'9' b'3', 3 b'9' b'4', 3 b'9' b'5', 3 b'9' b'6', 3 b'9' b'7', 3 b'9' b'8', 3 b'9' b'9'
);

/// Writes a number below 1,000 so that it ends at `end`, and returns where it starts. It may overwrite the bytes before that.
#[inline(always)]
pub(crate) fn write_below_1000(number: u16, text: &mut [u8], end: usize) -> usize
    requires number { number < 1000 }
    requires room { (4 ≤ end) × (end ≤ length text.old) }
    ensures start { (result < end) × (end ≤ result + 3) }
    ensures written { drop result text.new ≡ decimal number ++ drop end text.old }
{
    let numeral = &NUMERALS[usize::from(number)];
    write_words(numeral, text, end);
    end - usize::from(numeral[0])
}

/// Room for the digits of a number below 100,000,000.
const ROOM: usize = 8;

/// The digits of a number: the end of `room`, from `start`.
#[derive(Clone, Copy)]
pub(crate) struct Digits {
    pub room: [u8; 8],
    pub start: usize,
}

impl Digits {
    /// The digits of this number.
    pub(crate) fn of(number: u64) -> Digits
        requires { number < 10 ^ 8 }
        ensures start { result.start ≤ 8 }
        ensures text { drop result.start result.room ≡ decimal number }
    {
        let mut room = [0; ROOM];
        let start = itoa::write_digits(number, &mut room, ROOM);
        Digits { room, start }
    }

    /// Writes these digits and two more after them so that they end at `end`, and returns where they start. It may overwrite the
    /// bytes before that.
    #[inline(always)]
    pub(crate) fn write_with(self, pair: usize, text: &mut [u8], end: usize) -> usize
        requires pair { pair < 100 }
        requires start { self.start ≤ 8 }
        requires room { (10 ≤ end) × (end ≤ length text.old) }
        ensures start { result + 10 ≡ end + self.start }
        ensures written { drop result text.new ≡ drop self.start self.room ++ ((48 + pair / 10) ∷ (48 + pair % 10) ∷ drop end text.old) }
    {
        let last = write_words(&PAIRS[pair], text, end);
        write_words(&self.room, text, last) + self.start
    }
}

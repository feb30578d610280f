//! What each byte counts as a digit, at each place of a number.

/// What each of the 256 bytes counts: the ten digits, the six letters, capitals and small ones, and
/// all other bytes.
macro_rules! counts {
    ($n:expr; $($digit:expr),*; $($letter:expr),*) => {
        [
            $n, $n, $n, $n, $n, $n, $n, $n, $n, $n, $n, $n, $n, $n, $n, $n, $n, $n, $n, $n, $n, $n,
            $n, $n, $n, $n, $n, $n, $n, $n, $n, $n, $n, $n, $n, $n, $n, $n, $n, $n, $n, $n, $n, $n,
            $n, $n, $n, $n,
            $($digit,)*
            $n, $n, $n, $n, $n, $n, $n,
            $($letter,)*
            $n, $n, $n, $n, $n, $n, $n, $n, $n, $n, $n, $n, $n, $n, $n, $n, $n, $n, $n, $n, $n, $n,
            $n, $n, $n, $n,
            $($letter,)*
            $n, $n, $n, $n, $n, $n, $n, $n, $n, $n, $n, $n, $n, $n, $n, $n, $n, $n, $n, $n, $n, $n,
            $n, $n, $n, $n, $n, $n, $n, $n, $n, $n, $n, $n, $n, $n, $n, $n, $n, $n, $n, $n, $n, $n,
            $n, $n, $n, $n, $n, $n, $n, $n, $n, $n, $n, $n, $n, $n, $n, $n, $n, $n, $n, $n, $n, $n,
            $n, $n, $n, $n, $n, $n, $n, $n, $n, $n, $n, $n, $n, $n, $n, $n, $n, $n, $n, $n, $n, $n,
            $n, $n, $n, $n, $n, $n, $n, $n, $n, $n, $n, $n, $n, $n, $n, $n, $n, $n, $n, $n, $n, $n,
            $n, $n, $n, $n, $n, $n, $n, $n, $n, $n, $n, $n, $n, $n, $n, $n, $n, $n, $n, $n, $n, $n,
            $n, $n, $n, $n, $n, $n, $n, $n, $n, $n, $n, $n, $n, $n, $n, $n, $n, $n, $n, $n, $n,
        ]
    };
}

/// What each byte counts at a place of a decimal number, by what a one counts there.
macro_rules! decimals {
    ($unit:literal) => {
        counts!(
            100_000_000;
            0, $unit, 2 * $unit, 3 * $unit, 4 * $unit, 5 * $unit, 6 * $unit, 7 * $unit, 8 * $unit,
            9 * $unit;
            100_000_000, 100_000_000, 100_000_000, 100_000_000, 100_000_000, 100_000_000
        )
    };
}

/// What each byte counts as the decimal digit at each of eight places, the ones first. A byte that
/// is no digit counts 100,000,000, which is more than eight digits tell.
pub(crate) static DECIMAL: [[u32; 256]; 8] = [
    decimals!(1),
    decimals!(10),
    decimals!(100),
    decimals!(1_000),
    decimals!(10_000),
    decimals!(100_000),
    decimals!(1_000_000),
    decimals!(10_000_000),
];

/// What a one counts at each of eight places of a decimal number, the ones first.
pub(crate) static POWERS: [u64; 8] = [1, 10, 100, 1_000, 10_000, 100_000, 1_000_000, 10_000_000];

/// What each byte counts at a place of a hexadecimal number, by what a one counts there.
macro_rules! hexadecimals {
    ($unit:literal) => {
        counts!(
            512;
            0, $unit, 2 * $unit, 3 * $unit, 4 * $unit, 5 * $unit, 6 * $unit, 7 * $unit, 8 * $unit,
            9 * $unit;
            10 * $unit, 11 * $unit, 12 * $unit, 13 * $unit, 14 * $unit, 15 * $unit
        )
    };
}

/// What each byte counts as the hexadecimal digit, of either case, at each of three places, the
/// ones first. A byte that is no digit counts 512, which is more than a word is.
pub(crate) static HEX: [[u32; 256]; 3] = [hexadecimals!(1), hexadecimals!(16), hexadecimals!(256)];

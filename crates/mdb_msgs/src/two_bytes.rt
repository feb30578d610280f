//! Numbers of two and of four bytes.

ghost use Rattle.std.specs.Prelude.{◌≡◌, ◌+◌, ◌*◌, ◌/◌, ◌%◌};

/// The number of two bytes, the high byte first.
pub(crate) fn number(high: u8, low: u8) -> u16
    ensures { result ≡ 256 * high + low }
{
    u16::from(high) * 256 + u16::from(low)
}

/// The high byte of a number.
pub(crate) fn high(number: u16) -> u8
    ensures { result ≡ number / 256 }
{
    (number / 256) as u8
}

/// The low byte of a number.
pub(crate) fn low(number: u16) -> u8
    ensures { result ≡ number % 256 }
{
    (number % 256) as u8
}

/// The high half of a number of four bytes.
pub(crate) fn high_half(number: u32) -> u16
    ensures { result ≡ number / 65536 }
{
    (number / 65536) as u16
}

/// The low half of a number of four bytes.
pub(crate) fn low_half(number: u32) -> u16
    ensures { result ≡ number % 65536 }
{
    (number % 65536) as u16
}

/// The number of two halves, the high one first.
pub(crate) fn long_number(high: u16, low: u16) -> u32
    ensures { result ≡ 65536 * high + low }
{
    u32::from(high) * 65536 + u32::from(low)
}

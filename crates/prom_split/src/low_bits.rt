//! The lowest bits of a number.
ghost use Rattle.std.specs.Prelude.{◌≡◌, ◌<◌, ◌%◌, ◌^◌};

/// The lowest bits of a number, as many as `count`.
pub(crate) fn low_bits(number: u128, count: u32) -> u128
    requires { count < 128 }
    ensures low { result ≡ number % 2 ^ count }
    ensures below { result < 2 ^ count }
{
    number & ((1u128 << count) - 1)
}

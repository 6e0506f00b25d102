//! Numbers in words, and their ranges.
ghost use Rattle.std.specs.Prelude.{◌≡◌};
ghost use Rattle.command_line.specs.Values.{number_in};

use orb_bytes::read_decimal;

/// The least number of bytes that `--limit` takes: 1 KiB.
pub const LEAST_LIMIT: u64 = 1_024;

/// The greatest number of bytes that `--limit` takes: 256 MiB.
pub const MOST_LIMIT: u64 = 268_435_456;

/// The number of bytes where `--limit` isn't given: 8 MiB.
pub const DEFAULT_LIMIT: u64 = 8_388_608;

/// The greatest seed of `trial`.
pub const MOST_SEED: u64 = 1_000_000_000_000_000_000;

/// The greatest count of `trial`, `serve` and `proxy`; the least is 1.
pub const MOST_COUNT: u64 = 1_000_000;

/// The number that 1 to 19 ASCII digits write, where it lies from `least` to `most`.
pub(crate) fn read_number(text: &str, least: u64, most: u64) -> Option<u64>
    ensures { result ≡ number_in least most text.now }
{
    let number = read_decimal(text.as_bytes())?;
    if least <= number && number <= most {
        Some(number)
    } else {
        None
    }
}

/// The count that a word of `trial`, `serve` or `proxy` writes.
pub(crate) fn read_count(text: &str) -> Option<u64>
    ensures { result ≡ number_in 1 MOST_COUNT text.now }
{
    read_number(text, 1, MOST_COUNT)
}

//! The values of options, and what stands for those that aren't given.
ghost use Rattle.std.specs.Prelude.{◌≡◌, option_map};
ghost use Rattle.command_line.specs.Values.{policy_of, limit_of};

use crate::asked::Policy;
use crate::numbers::{DEFAULT_LIMIT, LEAST_LIMIT, MOST_LIMIT, read_number};

/// The policy that the value of `--policy` names.
pub(crate) fn read_policy(value: Option<&str>) -> Option<Policy>
    ensures { result ≡ policy_of (option_map (λ v. v.now) value.entry) }
{
    match value {
        None => Some(Policy::Orb),
        Some("orb") => Some(Policy::Orb),
        Some("corb") => Some(Policy::Corb),
        Some(_) => None,
    }
}

/// The limit that the value of `--limit` writes.
pub(crate) fn read_limit(value: Option<&str>) -> Option<u64>
    ensures { result ≡ limit_of (option_map (λ v. v.now) value.entry) }
{
    match value {
        None => Some(DEFAULT_LIMIT),
        Some(text) => read_number(text, LEAST_LIMIT, MOST_LIMIT),
    }
}

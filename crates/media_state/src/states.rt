//! The states of media resources, as the ORB proposal tells them apart.
ghost use Rattle.std.specs.Prelude.{◌≡◌, ◌&&◌, false};
ghost use Rattle.media_state.specs.States.{state_after, keeps_no_length, name_of};

use arrayvec::ArrayVec;
use orb_bytes::{decimal, extend};

/// What is known of a request for media when its response comes.
#[derive(Clone, Copy, Debug, PartialEq, Eq)]
pub enum MediaState {
    /// It is no request for media.
    Na,
    /// No response of its resource was let through as media.
    Initial,
    /// A response of its resource was let through as media.
    Subsequent {
        /// The number of bytes of the whole resource, where a part of it that was let through stated it.
        complete: Option<u64>,
    },
}

impl MediaState {
    /// Its name in reports: `na`, `initial`, `subsequent`, or `subsequent:` and the complete length in decimal.
    pub fn name(&self) -> ArrayVec<u8, 31>
        ensures { result.items ≡ name_of self.now }
    {
        let mut name = ArrayVec::new();
        match self {
            MediaState::Na => extend(&mut name, b"na"),
            MediaState::Initial => extend(&mut name, b"initial"),
            MediaState::Subsequent { complete: None } => extend(&mut name, b"subsequent"),
            MediaState::Subsequent {
                complete: Some(length),
            } => {
                extend(&mut name, b"subsequent:");
                extend(&mut name, decimal(*length).as_slice());
            }
        }
        name
    }
}

/// The state after a response: by whether it was let through as media, or as a later part of a resource that was, and by
/// the complete length that it states.
///
/// After media it is `Subsequent` and keeps that length. A later part leaves its length only where none is kept.
/// Else the state is as before.
pub fn after(
    state: MediaState,
    was_media: bool,
    was_subsequent: bool,
    complete: Option<u64>,
) -> MediaState
    requires one { (was_media && was_subsequent) ≡ false }
    ensures { result ≡ state_after state was_media was_subsequent complete }
{
    let is_first_length = was_subsequent && keeps_no_length(state);
    if was_media || is_first_length {
        MediaState::Subsequent { complete }
    } else {
        state
    }
}

/// Whether responses of the resource were let through, and its complete length isn't kept.
fn keeps_no_length(state: MediaState) -> bool
    ensures { result ≡ keeps_no_length state }
{
    matches!(state, MediaState::Subsequent { complete: None })
}

#[cfg(test)]
mod tests {
    use super::MediaState::{Initial, Na, Subsequent};
    use super::*;

    const UNKNOWN: MediaState = Subsequent { complete: None };

    const KNOWN: MediaState = Subsequent {
        complete: Some(9000),
    };

    const OTHER: MediaState = Subsequent {
        complete: Some(u64::MAX),
    };

    /// A state, whether a response was let through as media and as a later part, the length that it states, and the state after it.
    type Row = (MediaState, bool, bool, Option<u64>, MediaState);

    const ROWS: [Row; 11] = [
        (Na, false, false, Some(9000), Na),
        (Initial, false, false, Some(9000), Initial),
        (Initial, true, false, Some(9000), KNOWN),
        (Initial, true, false, None, UNKNOWN),
        (KNOWN, true, false, None, UNKNOWN),
        (UNKNOWN, false, true, Some(9000), KNOWN),
        (UNKNOWN, false, true, None, UNKNOWN),
        (UNKNOWN, false, false, Some(9000), UNKNOWN),
        (KNOWN, false, true, Some(u64::MAX), KNOWN),
        (KNOWN, false, true, None, KNOWN),
        (Initial, false, true, Some(9000), Initial),
    ];

    const NAMES: [(MediaState, &[u8]); 5] = [
        (Na, b"na"),
        (Initial, b"initial"),
        (UNKNOWN, b"subsequent"),
        (KNOWN, b"subsequent:9000"),
        (OTHER, b"subsequent:18446744073709551615"),
    ];

    #[test]
    fn media_makes_what_follows_subsequent(rt: HostRuntime) {
        for (state, was_media, was_subsequent, complete, next) in ROWS {
            if !(was_media && was_subsequent) {
                assert_eq!(rt; after(state, was_media, was_subsequent, complete), next);
            }
        }
        for (state, name) in NAMES {
            assert!(rt; state.name().as_slice() == name, "{state:?}");
        }
    }
}

//! How a request enters the table of media states.
ghost use Rattle.std.specs.Prelude.{◌≡◌};
ghost use Rattle.exchanges.specs.Heads.{id_of};
ghost use Rattle.exchanges.specs.Media.{EntersFor};

use http_exchange::RequestHead;
use media_state::{Full, MediaState, MediaTable};

/// The state of its media resource that a request finds. The id of a media request is kept; [`Full`] exactly
/// where there is no room for it.
pub fn enter(table: &mut MediaTable, asks: &RequestHead) -> Result<MediaState, Full>
    ensures { EntersFor table.old table.new asks.now result }
{
    if asks.media {
        table.enter(asks.media_id)
    } else {
        Ok(MediaState::Na)
    }
}

/// The id of a media request.
pub fn id_of(asks: &RequestHead) -> Option<u64>
    ensures { result ≡ id_of asks.now }
{
    if asks.media { asks.media_id } else { None }
}

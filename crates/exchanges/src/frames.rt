//! How a body is framed.
ghost use Rattle.std.specs.Prelude.{◌≡◌};
ghost use Rattle.exchanges.specs.Heads.{is_chunked as is_chunked_frame, is_to_end as is_to_end_frame};

use http_exchange::BodyFrame;

/// The body comes in chunks.
pub fn is_chunked(frame: BodyFrame) -> bool
    ensures { result ≡ is_chunked_frame frame }
{
    matches!(frame, BodyFrame::Chunked)
}

/// The body runs to the end of the input.
pub fn is_to_end(frame: BodyFrame) -> bool
    ensures { result ≡ is_to_end_frame frame }
{
    matches!(frame, BodyFrame::ToEnd)
}

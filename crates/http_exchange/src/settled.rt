//! Laws of the definitions: what a caller that cuts a recording into heads and bodies goes by.
ghost use Rattle.std.specs.Prelude.{◌≡◌, ℕ, List, [], ◌++◌, take, Some};
ghost use Rattle.http_exchange.specs.Head.{head_length};
ghost use Rattle.http_exchange.specs.Frames.{HasBodyPrefix, IsBodyPrefix, IsWhole};
ghost use Rattle.http_exchange.specs.Heads.{HasOneRequest, HasOneResponse};
ghost use Rattle.http_exchange.specs.Reads.{HasRead};
ghost use Rattle.http_exchange.specs.declared.frames.BodyFrame.{BodyFrame};
ghost use Rattle.http_exchange.specs.declared.unframing.Unframer.{Unframer};

/// Bytes are at most one request head.
pub fn one_request()
    ensures { (head : List ℕ) → HasOneRequest head }
{}

/// Bytes are at most one response head.
pub fn one_response()
    ensures { (head : List ℕ) → HasOneResponse head }
{}

/// Where a head ends in some bytes, it ends there whatever follows, and the bytes up to there show it.
pub fn head_length_stays()
    ensures longer { (bytes more : List ℕ) (n : ℕ) → head_length bytes ≡ Some n → head_length (bytes ++ more) ≡ Some n }
    ensures alone { (bytes : List ℕ) (n : ℕ) → head_length bytes ≡ Some n → head_length (take n bytes) ≡ Some n }
{}

/// What the bytes say that an unframer has read: they begin a body of its frame, and what it gave
/// are the content bytes among them.
pub fn unframed_is_prefix()
    ensures { (u : Unframer) (f : BodyFrame) (m given : List ℕ) → HasRead u f m given → IsBodyPrefix f m given }
{}

/// What begins a body has one content, and so does a whole body; what begins it begins a body; and
/// after a whole body no byte stands.
pub fn prefixes_of_bodies()
    ensures one { (f : BodyFrame) (m g h : List ℕ) → IsBodyPrefix f m g → IsBodyPrefix f m h → g ≡ h }
    ensures whole { (f : BodyFrame) (m : List ℕ) → IsWhole f m → (g : List ℕ) × IsBodyPrefix f m g }
    ensures shorter { (f : BodyFrame) (m more g : List ℕ) → IsBodyPrefix f (m ++ more) g → HasBodyPrefix f m g }
    ensures last { (f : BodyFrame) (m more g : List ℕ) → IsWhole f m → IsBodyPrefix f (m ++ more) g → more ≡ [] }
{}

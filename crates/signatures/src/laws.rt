//! What the definitions say of one another.
ghost use Rattle.std.specs.Prelude.{◌≡◌, ◌↔◌, IsTrue, List, ℕ, Bool, length};
ghost use Rattle.signatures.specs.Patterns.{is_match, MatchesByPlace};
ghost use Rattle.signatures.specs.Mp4.{is_mp4_window, IsMp4};
ghost use Rattle.signatures.specs.Webm.{is_webm_window, IsWebm};
ghost use Rattle.signatures.specs.Mpeg.{is_mpeg_window, IsMpegFrame};

/// Law: a window matches a pattern exactly where each offset of the pattern agrees.
pub fn match_is_by_place()
    ensures { (bytes mask : List ℕ) (skip : Bool) (window : List ℕ) → length mask ≡ length bytes
        → IsTrue (is_match bytes mask skip window) ↔ MatchesByPlace bytes mask skip window }
{}

/// Law: the test of MP4 passes exactly the windows that match the signature.
pub fn mp4_test_is_signature()
    ensures { (window : List ℕ) → IsTrue (is_mp4_window window) ↔ IsMp4 window }
{}

/// Law: the test of WebM passes exactly the windows that match the signature.
pub fn webm_test_is_signature()
    ensures { (window : List ℕ) → IsTrue (is_webm_window window) ↔ IsWebm window }
{}

/// Law: the test of MP3 passes exactly the windows that match the signature.
pub fn mpeg_test_is_signature()
    ensures { (window : List ℕ) → IsTrue (is_mpeg_window window) ↔ IsMpegFrame window }
{}

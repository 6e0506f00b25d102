//! What the definitions say of one another.
ghost use Rattle.std.specs.Prelude.{IsTrue, ◌↔◌, List, ℕ};
ghost use Rattle.std.specs.List.{list_any};
ghost use Rattle.corb_sniffers.specs.Breakers.{HasBreaker};
ghost use Rattle.corb_sniffers.specs.Html.{tags, BeginsWithTag, SniffsHtml};
ghost use Rattle.corb_sniffers.specs.Json.{SniffsJson};
ghost use Rattle.corb_sniffers.specs.Values.{begins_with_tag, has_breaker, sniffs_html, sniffs_json, sniffs_xml};
ghost use Rattle.corb_sniffers.specs.Xml.{SniffsXml};

/// Law: whether a window is what a sniffer looks for is a truth value, which its definition settles.
pub fn sniffers_are_decided()
    ensures tag { (text : List ℕ) → IsTrue (list_any (begins_with_tag text) tags) ↔ BeginsWithTag text }
    ensures breaker { (window : List ℕ) → IsTrue (has_breaker window) ↔ HasBreaker window }
    ensures html { (window : List ℕ) → IsTrue (sniffs_html window) ↔ SniffsHtml window }
    ensures xml { (window : List ℕ) → IsTrue (sniffs_xml window) ↔ SniffsXml window }
    ensures json { (window : List ℕ) → IsTrue (sniffs_json window) ↔ SniffsJson window }
{}

//! CORB's confirmation sniffers: whether the first bytes of a body show HTML, XML, JSON, or a parser breaker.
//!
//! They are those of the explainer of Cross-Origin Read Blocking, restated over a window of bytes: a place past the
//! window's end never matches. A window may be any slice. `specs/` has a file for each, which cuts the window into
//! named pieces. Nothing here takes memory or fails.
#![tactic(auto)]

mod breakers;
mod html;
mod json;
mod laws;
#[cfg(test)]
mod tests;
mod xml;

pub use breakers::has_breaker;
pub use html::{begins_with_tag, sniffs_html};
pub use json::sniffs_json;
pub use laws::sniffers_are_decided;
pub use xml::sniffs_xml;

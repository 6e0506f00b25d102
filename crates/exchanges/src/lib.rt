//! One exchange of HTTP/1.1: a request head, and the response that answers it.
//!
//! `specs/Heads` says which bytes are the heads of an exchange, what they say, and what the response is judged by; `specs/Media` what
//! state its request finds in the table of media states. [`HeadRoom`] gathers a head and reads it. What reads exchanges stands
//! on this: an engine that reads recordings of them, and a proxy that has one a connection. Only [`HeadRoom::open`] takes memory.
#![tactic(auto)]

mod frames;
mod media;
mod room;

pub use frames::{is_chunked, is_to_end};
pub use media::{enter, id_of};
pub use room::{Context, HeadRoom};

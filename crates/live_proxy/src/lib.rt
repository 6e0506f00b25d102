//! A proxy of HTTP/1.1 that filters (RFC 9110 3.7, RFC 9112 3.2.2): one exchange a connection, and one table of media states
//! over all of them.
//!
//! A [`Proxy`] takes the request of a client ([`Proxy::request`]). `specs/Targets` says which targets it takes,
//! `specs/Requests` what it sends on of a request, `specs/Hearing` what it answers of the bytes that came, and
//! `specs/Proxies` what is known of it then. It sends the request on and relays the response ([`Proxy::answer`]):
//! `specs/Responses` says where a response ends and what is shown of it, and `specs/Answers` what each answer says. Its laws
//! (`laws`) say that this is one thing, and what further bytes add.
//!
//! `targets` reads targets over `http_uri`, `forwarding` writes the request head that is sent on, `gathering` pulls
//! until a head has come, and `relaying` judges a response while it comes.
#![tactic(auto)]

mod forwarding;
mod gathering;
mod laws;
mod outcomes;
mod proxy;
mod relaying;
mod targets;

pub use laws::{one_response, shown_grows};
pub use outcomes::{ProxyOutcome, ProxyRefusal};
pub use proxy::Proxy;

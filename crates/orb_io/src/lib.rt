//! The outside: where bytes come from, where they go, and the objects that stand for it.
//!
//! [`Source`] and [`Sink`] say what may be known of an object outside the program: its bytes, where
//! it tells them, and how many faults it had. A call fails only where that count rose. The objects
//! in memory tell all of it, and fail where they are told to; [`StdSource`] and [`StdSink`] stand
//! over std's readers and writers, and tell nothing but their faults.
//!
//! A [`Listener`] hands out links, each a source and a sink at once, and takes them back. It counts
//! the faults of `bind` and of `accept` apart, and tells how many links it handed out, where that
//! is known. [`MemoryListener`] has its links in memory; [`TcpListening`] takes them from the system.
//! A [`Dialer`] connects to a host that it is given, and counts its faults; [`MemoryDialer`] and
//! [`TcpDialing`] are the like.
//!
//! `specs/Told` has the words that every crate above cites, `specs/Memory`, `specs/Links`, `specs/Listeners` and
//! `specs/Dialers` what the objects in memory do, and `specs/Streams` what the adapters do.
#![tactic(auto)]

mod counting_sink;
mod dialer;
mod fault_count;
mod listener;
mod memory_dialer;
mod memory_link;
mod memory_listener;
mod memory_sink;
mod memory_source;
mod never_fails;
mod outbox;
mod outside;
mod pulling;
mod pushing;
mod ready_links;
mod streams;
mod supply;
mod tcp;
mod tcp_dialing;

pub use counting_sink::CountingSink;
pub use dialer::Dialer;
pub use listener::Listener;
pub use memory_dialer::MemoryDialer;
pub use memory_link::MemoryLink;
pub use memory_listener::MemoryListener;
pub use memory_sink::MemorySink;
pub use memory_source::MemorySource;
pub use never_fails::NeverFails;
pub use outbox::Outbox;
pub use outside::{Duplex, Failed, NoMemory, Sink, Source};
pub use pulling::{MOST_OF_A_RUN, pull_within};
pub use pushing::push_nonempty;
pub use streams::{StdSink, StdSource};
pub use tcp::{TcpLink, TcpListening};
pub use tcp_dialing::TcpDialing;

//! What a command line asks for.

/// What is done with a recording of HTTP exchanges.
#[derive(Clone, Copy, Debug, PartialEq, Eq)]
pub enum Job {
    /// The responses that are allowed are written.
    Filter,
    /// A line is written for each exchange.
    Explain,
}

/// The rules that judge.
#[derive(Clone, Copy, Debug, PartialEq, Eq)]
pub enum Policy {
    /// Opaque Response Blocking.
    Orb,
    /// Cross-Origin Read Blocking.
    Corb,
}

/// A command of the program, with all that its words say.
#[derive(Clone, Copy, Debug, PartialEq, Eq)]
pub enum Command<'w> {
    /// `filter` or `explain`: a recording is judged.
    Judge {
        /// What is written.
        job: Job,
        /// The rules that judge: the value of `--policy`.
        policy: Policy,
        /// How many bytes of a body are read for a script: the value of `--limit`.
        limit: u64,
    },
    /// `trial`: a recording that is made up is judged.
    Trial {
        /// What the recording is made from.
        seed: u64,
        /// How many exchanges it has.
        count: u64,
    },
    /// `mime`: the MIME type of the text is read.
    Mime(&'w [u8]),
    /// `har`: a HAR log is judged.
    Har,
    /// `type`: the MIME type of a response is computed.
    Type,
    /// `serve`: connections are accepted one after the other.
    Serve {
        /// Where the program listens, as it was written.
        address: &'w [u8],
        /// How many connections.
        count: u64,
    },
    /// `proxy`: connections are accepted one after the other, and each request is passed on.
    Proxy {
        /// Where the program listens, as it was written.
        address: &'w [u8],
        /// How many connections.
        count: u64,
    },
}

/// Why no command was read.
#[derive(Clone, Copy, Debug, PartialEq, Eq)]
pub enum Refused {
    /// The words ask for nothing.
    Usage,
    /// Memory ran out.
    NoMemory,
}

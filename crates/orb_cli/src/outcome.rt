//! How a run ends, and how serving does.
ghost use Rattle.std.specs.Prelude.{◌≡◌};
ghost use Rattle.orb_cli.specs.Outcomes.{outcome_of, typed_outcome};

use computed_type::TypeOutcome;
use http_exchange::BadKind;
use live_proxy::{ProxyOutcome, ProxyRefusal};
use orb_engine::EngineOutcome;

/// How a run ended. A place is that of a byte of the input, counted from 0.
#[derive(Clone, Copy, Debug, PartialEq, Eq)]
pub enum Outcome {
    /// The input was read to its end, and the recording ended there or was empty.
    Done,
    /// The words are not taken: nothing was read or written.
    Usage,
    /// The recording is bad at this place.
    Bad { kind: BadKind, place: u64 },
    /// The input ended inside the exchange that begins at this place.
    Cut { place: u64 },
    /// The head that begins at this place is longer than a head may be.
    HeadLimit { place: u64 },
    /// The request at this place has a new media id, and there is no room for it.
    MediaFull { place: u64 },
    /// The input goes on past the last byte that one run takes.
    Endless,
    /// The source failed.
    ReadFault,
    /// The sink failed.
    WriteFault,
    /// There was no memory for the run: nothing was written, and nothing read but for a HAR log.
    NoMemory,
    /// The input is no HAR log: this entry, numbered from 1, isn't whole, or 0 where the fault is outside the entries.
    NotHar { entry: u64 },
    /// The input is longer than a HAR log may be.
    HarLimit,
}

/// How serving connections ended.
#[derive(Clone, Copy, Debug, PartialEq, Eq)]
pub enum ServeOutcome {
    /// The stated number of connections was served.
    Done,
    /// The words are not taken: nothing was bound or written.
    Usage,
    /// The listener failed to take the address: nothing was written.
    BindFault,
    /// The listener failed to hand out a connection.
    AcceptFault,
    /// The log failed.
    WriteFault,
    /// There was no memory for the engine: nothing was bound or written.
    NoMemory,
}

/// How a client of a proxy was served.
#[derive(Clone, Copy, Debug, PartialEq, Eq)]
pub enum ClientOutcome {
    /// Its request was refused, or none came.
    Refused(ProxyRefusal),
    /// The host that it asked for was not reached.
    Unreached,
    /// It was answered.
    Answered(ProxyOutcome),
}

impl From<EngineOutcome> for Outcome {
    ghost from_gives = { λ end outcome. outcome ≡ outcome_of end };

    fn from(end: EngineOutcome) -> Outcome {
        match end {
            EngineOutcome::Done => Outcome::Done,
            EngineOutcome::Bad { kind, place } => Outcome::Bad { kind, place },
            EngineOutcome::Cut { place } => Outcome::Cut { place },
            EngineOutcome::HeadLimit { place } => Outcome::HeadLimit { place },
            EngineOutcome::MediaFull { place } => Outcome::MediaFull { place },
            EngineOutcome::Endless => Outcome::Endless,
            EngineOutcome::ReadFault => Outcome::ReadFault,
            EngineOutcome::WriteFault => Outcome::WriteFault,
        }
    }
}

impl From<TypeOutcome> for Outcome {
    ghost from_gives = { λ end outcome. outcome ≡ typed_outcome end };

    fn from(end: TypeOutcome) -> Outcome {
        match end {
            TypeOutcome::Done => Outcome::Done,
            TypeOutcome::Bad { kind } => Outcome::Bad { kind, place: 0 },
            TypeOutcome::Cut => Outcome::Cut { place: 0 },
            TypeOutcome::HeadLimit => Outcome::HeadLimit { place: 0 },
            TypeOutcome::Endless => Outcome::Endless,
            TypeOutcome::ReadFault => Outcome::ReadFault,
            TypeOutcome::WriteFault => Outcome::WriteFault,
        }
    }
}

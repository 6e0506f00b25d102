//! The states of an engine, and how it goes from each to the next.
//!
//! A recording is exchanges, one after another, and an exchange is a request head, a response head and a body.
//! So an engine that reads one is in one of three states, named for what it reads next:
//!
//! ```text
//!   RequestHead ──▶ ResponseHead ──▶ Body ──▶ RequestHead ──▶ ..
//! ```
//!
//! - `RequestHead`: the bytes of the head so far are gathered. Once it is whole it is read, and the state of its
//!   media resource is looked up (`read_request`).
//! - `ResponseHead`: likewise, and what the request said is kept. Once the head is whole it is read, and
//!   the writer begins with the response (`read_response`, `begin_body`).
//! - `Body`: the unframer takes the bytes, and their content goes to the writer (`take_body`). Once the body
//!   is whole, which that of some responses is at once, the exchange is closed: the writer ends, the
//!   media state is kept, and the next exchange begins (`settle_body`, `close`).
//!
//! A step takes the first bytes of a piece, at least one, and goes at most one state on; `take_all` steps until
//! the piece is taken. What stops a step is an outcome: the recording is refused at some byte, a limit is
//! passed, or the sink failed. After it the engine is `Idle` until a new recording begins. Where the input ends,
//! `finish` says so: between two exchanges, inside of one, or after a body that runs to the end of the input.
//!
//! Nothing else changes the state but `Engine::start`, and the end of `feed` and `end`, which make it `Idle`.

use super::Engine;
use crate::outcome::EngineOutcome;
use crate::settings::Settings;
use exchanges::{Context, enter, id_of, is_chunked, is_to_end};
use http_exchange::{BadKind, BodyFrame, HeadTaken, RequestHead, Taken, Unframer};
use media_state::MediaState;
use orb_io::Sink;
use response_rules::Facts;

/// What an engine reads next.
#[derive(Drop)]
pub(crate) enum State {
    /// Nothing: it is in no recording.
    Idle,
    /// A request head.
    RequestHead,
    /// The response head that answers a request.
    ResponseHead(Asked),
    /// The body of a response.
    Body(Incoming),
}

/// A request whose response comes.
#[derive(Clone, Copy, Debug)]
pub(crate) struct Asked {
    /// What it says of the fetch that made it.
    pub(crate) asks: RequestHead,
    /// The state of its media resource.
    pub(crate) state: MediaState,
    // Where the response begins.
    offset: u64,
}

/// A response whose body comes.
#[derive(Drop)]
pub(crate) struct Incoming {
    // Reads the body.
    unframer: Unframer,
    // The body runs to the end of the input.
    to_end: bool,
    // The id of the media resource.
    id: Option<u64>,
}

impl Asked {
    ghost use Rattle.std.specs.Prelude.{◌≡◌};
    ghost use Rattle.orb_engine.specs.Judged.{context_of};

    /// What the response is judged by besides its own head.
    fn context(self, settings: Settings) -> Context
        ensures { result ≡ context_of settings self.asks self.state }
    {
        Context {
            policy: settings.policy,
            state: self.state,
            asks: self.asks,
            limit: settings.limit,
        }
    }
}

impl State {
    ghost use Rattle.std.specs.Prelude.{◌≡◌};
    ghost use Rattle.orb_engine.specs.declared.engine.states.Incoming.{Incoming};
    ghost use Rattle.orb_engine.specs.Reads.{IsInBody, Unframes};

    /// Feeds the unframer of a body.
    fn unframe<'p>(&mut self, piece: &'p [u8]) -> Taken<'p>
        requires { IsInBody self.old }
        ensures { (i : Incoming) → self.old ≡ State.Body i → Unframes i self.new piece.now result }
    {
        match self {
            State::Body(incoming) => incoming.unframer.feed(piece),
            _ => unreachable!(),
        }
    }
}

impl Engine {
    ghost use Rattle.std.specs.Prelude.{◌≡◌, ◌≤◌, ◌<◌, ◌+◌, ◌^◌, ◌++◌, ℕ, List, length, true, IfOk, OnOk};
    ghost use Rattle.orb_io.specs.Told.{Gives};
    ghost use Rattle.http_exchange.specs.HeadTexts.{IsHeadText};
    ghost use Rattle.orb_engine.specs.declared.settings.Settings.{Settings};
    ghost use Rattle.orb_engine.specs.Reads.{Reads, Halts, HaltCause, Steps, Settles, Causes, HasRequest, HasResponse, HasHead, HasReadHeads, FillsAt, Coming, IsInHead, IsInBody, head_offset_of};
    ghost use Rattle.orb_engine.specs.Steps.{Meets, Goes};
    ghost use Rattle.orb_engine.specs.Closing.{IsClosing, Closes};
    ghost use Rattle.orb_engine.specs.Runs.{settings_of};

    /// Takes the first bytes of a piece, by the state.
    fn step<O: Sink>(&mut self, piece: &[u8], output: &mut O) -> Result<usize, EngineOutcome>
        requires can { Meets (Reads self.old) }
        requires few { self.old.progress.taken + length piece.now ≤ 2 ^ 62 }
        ensures goes { Goes O.Sink (Causes result) output.old output.new
            (Reads self.old) (λ s m. Steps result self.new s m piece.now) }
        ensures moves { 1 ≤ length piece.now → IfOk result (λ used. 1 ≤ used) }
        ensures settings { self.new.writer.settings ≡ self.old.writer.settings }
    {
        match &self.state {
            State::RequestHead | State::ResponseHead(_) => self.take_head(piece, output),
            State::Body(_) => self.take_body(piece, output),
            State::Idle => unreachable!(),
        }
    }

    /// Takes the whole piece.
    pub(crate) fn take_all<O: Sink>(
        &mut self,
        piece: &[u8],
        output: &mut O,
    ) -> Result<(), EngineOutcome>
        requires can { Meets (Reads self.old) }
        requires few { self.old.progress.taken + length piece.now ≤ 2 ^ 62 }
        ensures goes { Goes O.Sink (Causes result) output.old output.new
            (Reads self.old) (λ s m. Settles result self.new s (m ++ piece.now)) }
        ensures settings { self.new.writer.settings ≡ self.old.writer.settings }
    {
        let mut rest = piece;
        'steps: while !rest.is_empty() {
            match self.step(rest, output) {
                Ok(used) => rest = rest.split_at(used).1,
                Err(stop) => return Err(stop),
            }
        }
        Ok(())
    }

    /// Takes the bytes of the head that comes.
    fn take_head<O: Sink>(&mut self, piece: &[u8], output: &mut O) -> Result<usize, EngineOutcome>
        requires can { Meets (Reads self.old) }
        requires head { IsInHead self.old.state }
        requires few { self.old.progress.taken + length piece.now ≤ 2 ^ 62 }
        ensures goes { Goes O.Sink (Causes result) output.old output.new
            (Reads self.old) (λ s m. Steps result self.new s m piece.now) }
        ensures moves { 1 ≤ length piece.now → IfOk result (λ used. 1 ≤ used) }
        ensures settings { self.new.writer.settings ≡ self.old.writer.settings }
    {
        match self.head.take(piece) {
            HeadTaken::Open => {
                self.progress.advance(piece.len());
                Ok(piece.len())
            }
            HeadTaken::Long => Err(EngineOutcome::HeadLimit {
                place: self.head_offset(),
            }),
            HeadTaken::Whole { used } => {
                self.progress.advance(used);
                match self.read_head(output) {
                    Ok(()) => Ok(used),
                    Err(stop) => Err(stop),
                }
            }
        }
    }

    /// Where the head that comes begins.
    fn head_offset(&self) -> u64
        ensures { result ≡ head_offset_of self.now.state self.now }
    {
        match &self.state {
            State::ResponseHead(asked) => asked.offset,
            _ => self.progress.offset(),
        }
    }

    /// Reads the head that has come.
    fn read_head<O: Sink>(&mut self, output: &mut O) -> Result<(), EngineOutcome>
        requires can { Meets (HasHead IsHeadText self.old.state self.old) }
        requires few { self.old.progress.taken ≤ 2 ^ 62 }
        ensures goes { Goes O.Sink (Causes result) output.old output.new
            (HasHead IsHeadText self.old.state self.old) (Settles result self.new) }
        ensures settings { self.new.writer.settings ≡ self.old.writer.settings }
    {
        match &self.state {
            State::RequestHead => self.read_request(),
            State::ResponseHead(asked) => {
                let asked = *asked;
                self.read_response(asked, output)
            }
            State::Idle | State::Body(_) => unreachable!(),
        }
    }

    /// Reads the request head that has come.
    fn read_request(&mut self) -> Result<(), EngineOutcome>
        requires can { Meets (HasRequest IsHeadText self.old) }
        ensures settles { (s : Settings) (m given : List ℕ) → HasRequest IsHeadText self.old s m given
            → Settles result self.new s m given }
        ensures no_faults { (n : ℕ) → Causes result n n }
        ensures settings { self.new.writer.settings ≡ self.old.writer.settings }
    {
        let asks = match self.head.request() {
            Ok(asks) => asks,
            Err(kind) => {
                return Err(EngineOutcome::Bad {
                    kind,
                    place: self.progress.offset(),
                });
            }
        };
        match enter(&mut self.media, &asks) {
            Ok(state) => {
                self.head.clear();
                self.state = State::ResponseHead(Asked {
                    asks,
                    state,
                    offset: self.progress.taken(),
                });
                Ok(())
            }
            Err(_) => Err(EngineOutcome::MediaFull {
                place: self.progress.offset(),
            }),
        }
    }

    /// Reads the response head that has come.
    fn read_response<O: Sink>(&mut self, asked: Asked, output: &mut O) -> Result<(), EngineOutcome>
        requires can { Meets (HasResponse IsHeadText asked self.old) }
        requires few { self.old.progress.taken ≤ 2 ^ 62 }
        ensures goes { Goes O.Sink (Causes result) output.old output.new
            (HasResponse IsHeadText asked self.old) (Settles result self.new) }
        ensures settings { self.new.writer.settings ≡ self.old.writer.settings }
    {
        match self.head.response(asked.context(self.writer.settings)) {
            Ok((facts, frame)) => self.begin_body(asked, facts, frame, output),
            Err(kind) => Err(EngineOutcome::Bad {
                kind,
                place: asked.offset,
            }),
        }
    }

    /// Begins the body whose heads have been read.
    fn begin_body<O: Sink>(
        &mut self,
        asked: Asked,
        facts: Facts,
        frame: BodyFrame,
        output: &mut O,
    ) -> Result<(), EngineOutcome>
        requires can { Meets (HasReadHeads asked (facts, frame) self.old) }
        requires few { self.old.progress.taken ≤ 2 ^ 62 }
        ensures goes { Goes O.Sink (Causes result) output.old output.new
            (HasReadHeads asked (facts, frame) self.old) (Settles result self.new) }
        ensures settings { self.new.writer.settings ≡ self.old.writer.settings }
    {
        let chunked = is_chunked(frame);
        match self
            .writer
            .begin(facts, self.head.as_slice(), chunked, output)
        {
            Ok(()) => {
                self.state = State::Body(Incoming {
                    unframer: Unframer::new(frame),
                    to_end: is_to_end(frame),
                    id: id_of(&asked.asks),
                });
                self.settle_body(output)
            }
            Err(_) => Err(EngineOutcome::WriteFault),
        }
    }

    /// Takes the bytes of a body.
    fn take_body<O: Sink>(&mut self, piece: &[u8], output: &mut O) -> Result<usize, EngineOutcome>
        requires can { Meets (Reads self.old) }
        requires body { IsInBody self.old.state }
        requires few { self.old.progress.taken + length piece.now ≤ 2 ^ 62 }
        ensures goes { Goes O.Sink (Causes result) output.old output.new
            (Reads self.old) (λ s m. Steps result self.new s m piece.now) }
        ensures moves { 1 ≤ length piece.now → IfOk result (λ used. 1 ≤ used) }
        ensures settings { self.new.writer.settings ≡ self.old.writer.settings }
    {
        match self.state.unframe(piece) {
            Taken::Bad { at } => Err(EngineOutcome::Bad {
                kind: BadKind::BadChunk,
                place: self.progress.taken() + at as u64,
            }),
            Taken::Got { body, used } => {
                self.progress.advance(used);
                match self.writer.feed(body, output) {
                    Ok(()) => match self.settle_body(output) {
                        Ok(()) => Ok(used),
                        Err(stop) => Err(stop),
                    },
                    Err(_) => Err(EngineOutcome::WriteFault),
                }
            }
        }
    }

    /// Closes the exchange where its body is whole.
    fn settle_body<O: Sink>(&mut self, output: &mut O) -> Result<(), EngineOutcome>
        requires can { Meets (FillsAt self.old.state self.old) }
        requires few { self.old.progress.taken ≤ 2 ^ 62 }
        ensures goes { Goes O.Sink (Causes result) output.old output.new
            (FillsAt self.old.state self.old) (Settles result self.new) }
        ensures settings { self.new.writer.settings ≡ self.old.writer.settings }
    {
        let State::Body(incoming) = &self.state else {
            unreachable!()
        };
        if !incoming.unframer.is_whole() {
            return Ok(());
        }
        let id = incoming.id;
        self.close(id, output)
    }

    /// Ends the exchange whose body has come whole, by the id of its media resource.
    fn close<O: Sink>(&mut self, id: Option<u64>, output: &mut O) -> Result<(), EngineOutcome>
        requires can { (s : Settings) × (c : Coming) × (given : List ℕ) × IsClosing self.old s c id given }
        requires few { self.old.progress.counts.allowed + self.old.progress.counts.blocked < 2 ^ 62 }
        ensures goes { Goes O.Sink (Causes result) output.old output.new
            (λ s c. IsClosing self.old s c id) (Closes result self.new) }
        ensures taken { self.new.progress.taken ≡ self.old.progress.taken }
        ensures settings { self.new.writer.settings ≡ self.old.writer.settings }
    {
        let number = self.progress.number();
        match self.writer.end(number, output) {
            Ok(verdict) => {
                self.media.leave(id, verdict.state);
                self.progress.close(verdict.allow);
                self.head.clear();
                self.state = State::RequestHead;
                Ok(())
            }
            Err(_) => Err(EngineOutcome::WriteFault),
        }
    }

    /// How the recording ends where no more comes.
    pub(crate) fn finish<O: Sink>(&mut self, output: &mut O) -> EngineOutcome
        requires can { Meets (Reads self.old) }
        requires few { self.old.progress.taken ≤ 2 ^ 62 }
        ensures goes { Goes O.Sink (HaltCause result) output.old output.new
            (Reads self.old) (λ s m. Halts result self.new s m true) }
        ensures settings { settings_of self.new ≡ settings_of self.old }
    {
        let cut = EngineOutcome::Cut {
            place: self.progress.offset(),
        };
        match &self.state {
            State::RequestHead => {
                if self.head.as_slice().is_empty() {
                    EngineOutcome::Done
                } else {
                    cut
                }
            }
            State::ResponseHead(_) => cut,
            State::Body(incoming) => {
                if !incoming.to_end {
                    return cut;
                }
                let id = incoming.id;
                match self.close(id, output) {
                    Ok(()) => EngineOutcome::Done,
                    Err(stop) => stop,
                }
            }
            State::Idle => unreachable!(),
        }
    }
}

//! Room for the head that comes, and to read it.
ghost use Rattle.std.specs.Prelude.{◌≡◌, ◌≤◌, length};

use arrayvec::ArrayVec;
use header_values::{FieldSpan, Scratch};
use http_exchange::{
    BadKind, BodyFrame, HeadReader, HeadTaken, RequestHead, read_request, read_response,
};
use media_state::MediaState;
use orb_io::NoMemory;
use response_rules::{Facts, Policy};
use std::alloc::Global;
use std::marker::Model;

/// The most bytes of a head.
const HEAD: usize = 65_536;

/// What a response is judged by besides its own head.
#[derive(Clone, Copy, Debug)]
pub struct Context {
    /// The rules that judge.
    pub policy: Policy,
    /// The state of its media resource.
    pub state: MediaState,
    /// What the request says of the fetch that made it.
    pub asks: RequestHead,
    /// How many bytes of a body are read for a script.
    pub limit: u64,
}

/// The bytes of the head that comes, and the room to read it. To a contract it is those bytes.
#[derive(Drop)]
pub struct HeadRoom {
    gathered: HeadReader,
    // Where the fields of the last response head stood.
    spans: ArrayVec<FieldSpan, 128>,
    scratch: Scratch,
}

impl Model for HeadRoom {
    ghost use Rattle.std.specs.Prelude.{ℕ, List, ◌≤◌};

    ghost Value = { List ℕ };

    ghost view = { λ b. b.gathered };

    ghost invariant = { λ b. 65536 ≤ b.scratch };
}

impl HeadRoom {
    ghost use Rattle.std.specs.Prelude.{[], IfOk};
    ghost use Rattle.http_exchange.specs.HeadTexts.{IsOpenHead};
    ghost use Rattle.http_exchange.specs.Gathering.{TakesHead};
    ghost use Rattle.http_exchange.specs.Reading.{ReadsRequestHead};
    ghost use Rattle.exchanges.specs.HeadReads.{ReadsResponse};

    /// Reserves room for a head.
    pub fn open(alloc: Global) -> Result<HeadRoom, NoMemory>
        ensures { IfOk result (λ b. b ≡ []) }
    {
        let gathered = HeadReader::open(alloc)?;
        match Scratch::open(alloc, HEAD) {
            Ok(scratch) => Ok(HeadRoom {
                gathered,
                spans: ArrayVec::new(),
                scratch,
            }),
            Err(_) => Err(NoMemory),
        }
    }

    /// Forgets the bytes.
    pub fn clear(&mut self)
        ensures { self.new ≡ [] }
    {
        self.gathered.clear();
    }

    /// The bytes.
    pub fn as_slice(&self) -> &[u8]
        ensures value { result.now ≡ self.now }
        ensures fits { length result.now ≤ 65536 }
    {
        self.gathered.as_slice()
    }

    /// Takes the bytes of the piece that belong to the head.
    pub fn take(&mut self, piece: &[u8]) -> HeadTaken
        requires { IsOpenHead self.old }
        ensures { TakesHead self.old self.new piece.now result }
    {
        self.gathered.take(piece)
    }

    /// Reads the bytes as a request head, as [`read_request`] does.
    pub fn request(&mut self) -> Result<RequestHead, BadKind>
        ensures reads { ReadsRequestHead self.old result }
        ensures same { self.new ≡ self.old }
    {
        read_request(self.gathered.as_slice(), &mut self.scratch)
    }

    /// Reads the bytes as the response head that answers a request, as [`read_response`] does: what the rules ask of it, and
    /// how its body is framed.
    pub fn response(&mut self, context: Context) -> Result<(Facts, BodyFrame), BadKind>
        ensures reads { ReadsResponse context self.old result }
        ensures same { self.new ≡ self.old }
    {
        match read_response(
            self.gathered.as_slice(),
            context.asks.is_head,
            &mut self.spans,
            &mut self.scratch,
        ) {
            Ok(response) => {
                let facts = Facts::read(
                    context.policy,
                    context.state,
                    context.asks.opaque,
                    response.status,
                    &response.fields,
                    &mut self.scratch,
                    context.limit,
                );
                Ok((facts, response.frame))
            }
            Err(kind) => Err(kind),
        }
    }
}

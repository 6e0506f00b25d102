//! The adapters over std's readers and writers.
//!
//! They tell neither bytes nor numbers, since nothing is known of a file or a socket. Where a reader
//! or a writer does tell its bytes in std's words, the adapters' own clauses say what became of them.
ghost use Rattle.std.specs.Prelude.{◌≡◌, None};
ghost use Rattle.std.specs.Io.{ReadsAtMost};
ghost use Rattle.std.specs.Io.KnownBytes.{ReadConsumes};
ghost use Rattle.orb_io.specs.Told.{Pulls, Pushes, HasCause, untold};
ghost use Rattle.orb_io.specs.Counts.{CountsFault, IsCounted};
ghost use Rattle.orb_io.specs.Streams.{PushAppends};

use crate::fault_count::raised;
use crate::outside::{Failed, Sink, Source};
use std::io;
use std::io::{Error, ErrorKind, Read, Write};

/// A source over a reader. It doesn't tell its bytes.
#[derive(Drop)]
pub struct StdSource<R> {
    inner: R,
    faults: u64,
}

impl<R: Read> StdSource<R> {
    ghost use Rattle.orb_io.specs.Adapters.{reader_of, read_faults};

    /// Reads from `inner`, with no fault so far.
    pub fn new(inner: R) -> StdSource<R>
        ensures reader { reader_of result ≡ inner }
        ensures faults { read_faults result ≡ 0 }
    {
        StdSource { inner, faults: 0 }
    }
}

impl<R: Read> Source for StdSource<R> {
    ghost use Rattle.orb_io.specs.Adapters.{reader_of, read_faults};

    ghost left = { λ _. None };

    ghost faults = { λ s. read_faults s };

    ghost kept = { λ _ _. Unit {0} };

    ghost kept_reflexive = { λ _. tt };

    ghost kept_transitive = { λ _ _ _ _ _. tt };

    /// Reads once. Each error of a read is a fault, an interrupted one too.
    fn pull(&mut self, buf: &mut [u8]) -> Result<usize, Failed>
        ensures bound { ReadsAtMost result buf.new }
        ensures bytes { Pulls None None result buf.new }
        ensures cause { HasCause (read_faults self.old) (read_faults self.new) result }
        ensures counts { CountsFault (read_faults self.old) (read_faults self.new) result }
        ensures reads { ReadConsumes (R.remaining (reader_of self.old))
            (R.remaining (reader_of self.new)) result buf.new }
    {
        counted(self.inner.read(buf), &mut self.faults)
    }
}

/// A sink over a writer. It tells neither its bytes nor their number.
#[derive(Drop)]
pub struct StdSink<W> {
    inner: W,
    faults: u64,
}

impl<W: Write> StdSink<W> {
    ghost use Rattle.orb_io.specs.Adapters.{writer_of, write_faults};

    /// Writes to `inner`, with no fault so far.
    pub fn new(inner: W) -> StdSink<W>
        ensures writer { writer_of result ≡ inner }
        ensures faults { write_faults result ≡ 0 }
    {
        StdSink { inner, faults: 0 }
    }
}

impl<W: Write> Sink for StdSink<W> {
    ghost use Rattle.orb_io.specs.Adapters.{writer_of, write_faults};

    ghost told = { λ _. untold };

    ghost faults = { λ s. write_faults s };

    ghost kept = { λ _ _. Unit {0} };

    ghost told_agrees = { λ _. record { number = tt; fits = tt } };

    ghost kept_reflexive = { λ _. tt };

    ghost kept_transitive = { λ _ _ _ _ _. tt };

    /// Writes the whole piece and flushes. Each error is a fault, an interrupted write too, and so
    /// is a write that takes nothing of what is left.
    fn push(&mut self, piece: &[u8]) -> Result<(), Failed>
        ensures bytes { Pushes result untold untold piece.now }
        ensures cause { HasCause (write_faults self.old) (write_faults self.new) result }
        ensures counts { CountsFault (write_faults self.old) (write_faults self.new) result }
        ensures writes { PushAppends (W.contents (writer_of self.old))
            (W.contents (writer_of self.new)) result piece.now }
    {
        counted(write_and_flush(&mut self.inner, piece), &mut self.faults)
    }
}

/// The answer that stands for what std answered: the same value, or a failure that is counted.
pub(crate) fn counted<T>(outcome: io::Result<T>, faults: &mut u64) -> Result<T, Failed>
    ensures counted { IsCounted outcome result faults.old faults.new }
    ensures cause { HasCause faults.old faults.new result }
{
    match outcome {
        Ok(value) => Ok(value),
        Err(_) => Err(raised(faults)),
    }
}

/// Writes the whole piece and flushes, and stops at the first error.
pub(crate) fn write_and_flush<W: Write>(writer: &mut W, piece: &[u8]) -> io::Result<()>
    ensures { PushAppends (W.contents writer.old) (W.contents writer.new) result piece.now }
{
    let mut rest = piece;
    'writing: while !rest.is_empty() {
        match writer.write(rest)? {
            0 => return Err(Error::from(ErrorKind::WriteZero)),
            count => rest = rest.split_at(count).1,
        }
    }
    writer.flush()
}

#[cfg(test)]
mod tests {
    use super::*;
    use std::test::Fail;

    /// A reader that answers each read by the next of these, one byte at a time, and then with the
    /// end.
    #[derive(Drop)]
    struct ByteByByte<'t> {
        reads: &'t [Result<u8, ErrorKind>],
    }

    impl Read for ByteByByte<'_> {
        fn read(&mut self, buf: &mut [u8]) -> io::Result<usize> {
            let Some((first, others)) = self.reads.split_first() else {
                return Ok(0);
            };
            self.reads = others;
            match *first {
                Ok(byte) => [byte].as_slice().read(buf),
                Err(kind) => Err(Error::from(kind)),
            }
        }
    }

    /// A writer that takes as much at each write as the next of these says, and then all.
    #[derive(Drop)]
    struct Taking<'t> {
        writes: &'t [Result<usize, ErrorKind>],
        flush: Result<(), ErrorKind>,
        flushed: bool,
        taken: Vec<u8>,
    }

    impl Write for Taking<'_> {
        fn write(&mut self, buf: &[u8]) -> io::Result<usize> {
            let mut most = buf.len();
            if let Some((first, others)) = self.writes.split_first() {
                self.writes = others;
                match *first {
                    Ok(count) => most = count.min(buf.len()),
                    Err(kind) => return Err(Error::from(kind)),
                }
            }
            self.taken.extend_from_slice(&buf[..most])?;
            Ok(most)
        }

        fn flush(&mut self) -> io::Result<()> {
            self.flushed = true;
            match self.flush {
                Ok(()) => Ok(()),
                Err(kind) => Err(Error::from(kind)),
            }
        }
    }

    /// What a pull gives, and the count of faults then.
    const PULLS: [(Option<&str>, u64); 6] = [
        (Some("a"), 0),
        (None, 1),
        (Some("b"), 1),
        (None, 2),
        (Some("c"), 2),
        (Some(""), 2),
    ];

    #[test]
    fn each_error_of_a_read_is_a_fault(rt: HostRuntime) {
        let reads = [
            Ok(b'a'),
            Err(ErrorKind::Interrupted),
            Ok(b'b'),
            Err(ErrorKind::Other),
            Ok(b'c'),
        ];
        let mut source = StdSource::new(ByteByByte { reads: &reads });
        let mut buf = [0u8; 4];
        for (want, faults) in PULLS {
            let given = match source.pull(&mut buf) {
                Ok(count) => Some(&buf[..count]),
                Err(Failed) => None,
            };
            assert_eq!(rt; given, want.map(|text| text.as_bytes()));
            assert_eq!(rt; source.faults, faults);
        }
    }

    /// How the writes and the flush end, whether the push does, what was written, and whether it was flushed.
    const PUSHES: [(
        &[Result<usize, ErrorKind>],
        Result<(), ErrorKind>,
        bool,
        &str,
        bool,
    ); 7] = [
        (&[], Ok(()), true, "abcde", true),
        (&[Ok(2), Ok(1)], Ok(()), true, "abcde", true),
        (&[Ok(2), Err(ErrorKind::Other)], Ok(()), false, "ab", false),
        (
            &[Ok(2), Err(ErrorKind::Interrupted)],
            Ok(()),
            false,
            "ab",
            false,
        ),
        (&[Ok(2), Ok(0)], Ok(()), false, "ab", false),
        (&[Ok(0)], Ok(()), false, "", false),
        (&[], Err(ErrorKind::Other), false, "abcde", true),
    ];

    #[test]
    fn a_push_writes_all_and_flushes(rt: HostRuntime) -> Result<(), Fail> {
        for (writes, flush, done, taken, flushed) in PUSHES {
            let mut sink = StdSink::new(Taking {
                writes,
                flush,
                flushed: false,
                taken: Vec::new(rt.alloc()),
            });
            assert_eq!(rt; sink.push(b"abcde").is_ok(), done);
            assert_eq!(rt; sink.faults, if done { 0 } else { 1 });
            assert_eq!(rt; sink.inner.taken.as_slice(), taken.as_bytes());
            assert_eq!(rt; sink.inner.flushed, flushed);
        }
        Ok(())
    }
}

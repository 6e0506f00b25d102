//! Connections, each with a recording: what comes from it is judged, and what is written of it goes back. A log has
//! a line for each.
ghost use Rattle.std.specs.Prelude.{◌≡◌};
ghost use Rattle.orb_io.specs.Calls.{Puts};
ghost use Rattle.orb_engine.specs.declared.outcome.EngineOutcome.{EngineOutcome};
ghost use Rattle.orb_engine.specs.Runs.{settings_of};
ghost use Rattle.orb_cli.specs.Outcomes.{outcome_of};
ghost use Rattle.orb_cli.specs.Serving.{RanOn, Served, HasServeCauses, log_line, status_in_log};

use crate::outcome::{Outcome, ServeOutcome};
use arrayvec::ArrayVec;
use command_line::DEFAULT_LIMIT;
use orb_bytes::{decimal, extend};
use orb_engine::{Engine, Job, Settings};
use orb_io::{Duplex, Failed, Listener, NoMemory, Sink};
use response_rules::Policy;
use std::alloc::Global;

/// How each connection is judged: as the word `filter` alone has it.
const SETTINGS: Settings = Settings {
    job: Job::Filter,
    policy: Policy::Orb,
    limit: DEFAULT_LIMIT,
};

/// Runs the engine over a link, and puts the number and the outcome's status into the log, in a line. It takes no
/// memory.
///
/// Answers [`Failed`] only where the log failed: a fault of the link is an outcome.
pub fn serve_link<K: Duplex, O: Sink>(
    engine: &mut Engine,
    number: u64,
    link: &mut K,
    log: &mut O,
) -> Result<(), Failed>
    ensures served { (o : EngineOutcome)
        × RanOn K.Source K.Sink (settings_of engine.old) link.old link.new (outcome_of o)
        × Puts O.Sink result log.old log.new (log_line number (status_in_log o)) }
    ensures settings { settings_of engine.new ≡ settings_of engine.old }
{
    let outcome = Outcome::from(engine.run_link(link));
    log.push(line(number, outcome.status()).as_slice())
}

/// The line of a connection in the log.
#[tactic(auto, unfolding(crate::specs::Serving::log_line))]
pub(crate) fn line(number: u64, status: u8) -> ArrayVec<u8, 42>
    ensures { result.items ≡ log_line number status }
{
    let mut line = ArrayVec::new();
    extend(&mut line, decimal(number).as_slice());
    extend(&mut line, b" ");
    extend(&mut line, decimal(u64::from(status)).as_slice());
    extend(&mut line, b"\n");
    line
}

/// Serves the stated number of connections to the address, one after the other, with one engine. A fault of one
/// doesn't end it.
///
/// The log gets a line for each: its number from 1, and its status. All memory is taken before the address is bound.
pub fn serve_connections<L: Listener, O: Sink>(
    alloc: Global,
    address: &[u8],
    count: u64,
    listener: &mut L,
    log: &mut O,
) -> ServeOutcome
    ensures served { Served status_in_log count (L.handed listener.old) (L.handed listener.new)
        (O.told log.old) (O.told log.new) result }
    ensures causes { HasServeCauses (L.bind_faults listener.old) (L.bind_faults listener.new)
        (L.accept_faults listener.old) (L.accept_faults listener.new)
        (O.faults log.old) (O.faults log.new) result }
{
    match Engine::open(alloc, SETTINGS) {
        Ok(mut engine) => match listener.bind(address) {
            Ok(()) => serve_each(&mut engine, count, listener, log),
            Err(Failed) => ServeOutcome::BindFault,
        },
        Err(NoMemory) => ServeOutcome::NoMemory,
    }
}

/// Serves the stated number of connections. Each link is given back whatever became of it and of the log.
fn serve_each<L: Listener, O: Sink>(
    engine: &mut Engine,
    count: u64,
    listener: &mut L,
    log: &mut O,
) -> ServeOutcome
    ensures served { Served status_in_log count (L.handed listener.old) (L.handed listener.new)
        (O.told log.old) (O.told log.new) result }
    ensures causes { HasServeCauses (L.bind_faults listener.old) (L.bind_faults listener.new)
        (L.accept_faults listener.old) (L.accept_faults listener.new)
        (O.faults log.old) (O.faults log.new) result }
{
    for before in 0..count {
        let Ok(mut link) = listener.accept() else {
            return ServeOutcome::AcceptFault;
        };
        let logged = serve_link(engine, before + 1, &mut link, log);
        listener.give_back(link);
        match logged {
            Ok(()) => {}
            Err(Failed) => return ServeOutcome::WriteFault,
        }
    }
    ServeOutcome::Done
}

#[cfg(test)]
mod tests {
    use super::*;
    use orb_io::{MemoryLink, MemorySink, MemorySource};
    use std::test::Fail;

    /// A request, and a response that is allowed.
    const SCRIPT: &[u8] = b"GET / HTTP/1.1\r\nSec-Fetch-Mode: no-cors\r\n\r\n\
         HTTP/1.1 200 OK\r\nContent-Type: text/javascript\r\nContent-Length: 2\r\n\r\n\
         x;";

    /// The pulls and pushes of the link that fail, and the log after it.
    static ROWS: [(&[u64], &[u64], &[u8]); 3] = [
        (&[1], &[], b"9 5\n"),
        (&[], &[0], b"9 5\n9 6\n"),
        (&[], &[], b"9 5\n9 6\n9 0\n"),
    ];

    #[test]
    fn a_fault_of_a_link_is_an_outcome(rt: HostRuntime) -> Result<(), Fail> {
        let alloc = rt.alloc();
        let mut engine = Engine::open(alloc, SETTINGS)?;
        let mut log = MemorySink::open(alloc, 100, Vec::new(alloc))?;
        for (pulls, pushes, lines) in &ROWS {
            let source = MemorySource::new(SCRIPT.to_vec(alloc)?, 50, pulls.to_vec(alloc)?);
            let sink = MemorySink::open(alloc, 100, pushes.to_vec(alloc)?)?;
            let mut link = MemoryLink::new(source, sink);
            assert_eq!(rt; serve_link(&mut engine, 9, &mut link, &mut log), Ok(()));
            assert_eq!(rt; log.bytes(), *lines);
        }
        Ok(())
    }
}

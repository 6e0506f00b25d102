//! Clients of a proxy, one exchange each. A log has a line for each.
ghost use Rattle.std.specs.Prelude.{◌≡◌};
ghost use Rattle.orb_io.specs.Calls.{Puts};
ghost use Rattle.orb_cli.specs.Report.{client_status_of};
ghost use Rattle.orb_cli.specs.Serving.{Served, HasServeCauses, log_line};

use crate::outcome::{ClientOutcome, ServeOutcome};
use crate::serving::line;
use command_line::DEFAULT_LIMIT;
use live_proxy::Proxy;
use orb_io::{Dialer, Duplex, Failed, Listener, NoMemory, Sink};
use std::alloc::Global;

/// Takes the request of a client, connects to the host that it is for, and answers it. The link to that host is given
/// back.
fn serve_client<K: Duplex, D: Dialer>(
    alloc: Global,
    proxy: &mut Proxy,
    client: &mut K,
    dialer: &mut D,
) -> ClientOutcome {
    match proxy.request(alloc, client) {
        Ok(()) => match dialer.dial(proxy.host(), proxy.port()) {
            Ok(mut upstream) => {
                let outcome = proxy.answer(&mut upstream, client);
                dialer.give_back(upstream);
                ClientOutcome::Answered(outcome)
            }
            Err(Failed) => ClientOutcome::Unreached,
        },
        Err(refusal) => ClientOutcome::Refused(refusal),
    }
}

/// Serves the stated number of clients that connect to the address, one after the other, with one proxy. A fault of one
/// doesn't end it.
///
/// The log gets a line for each: its number from 1, and its status. The proxy's memory is taken before the address is
/// bound.
pub(crate) fn proxy_connections<L: Listener, D: Dialer, O: Sink>(
    alloc: Global,
    address: &[u8],
    count: u64,
    listener: &mut L,
    dialer: &mut D,
    log: &mut O,
) -> ServeOutcome
    ensures served { Served client_status_of count (L.handed listener.old) (L.handed listener.new)
        (O.told log.old) (O.told log.new) result }
    ensures causes { HasServeCauses (L.bind_faults listener.old) (L.bind_faults listener.new)
        (L.accept_faults listener.old) (L.accept_faults listener.new)
        (O.faults log.old) (O.faults log.new) result }
{
    match Proxy::open(alloc, DEFAULT_LIMIT) {
        Ok(mut proxy) => match listener.bind(address) {
            Ok(()) => serve_clients(alloc, &mut proxy, count, listener, dialer, log),
            Err(Failed) => ServeOutcome::BindFault,
        },
        Err(NoMemory) => ServeOutcome::NoMemory,
    }
}

/// Serves the stated number of clients. Each link is given back before its line is logged.
fn serve_clients<L: Listener, D: Dialer, O: Sink>(
    alloc: Global,
    proxy: &mut Proxy,
    count: u64,
    listener: &mut L,
    dialer: &mut D,
    log: &mut O,
) -> ServeOutcome
    ensures served { Served client_status_of count (L.handed listener.old) (L.handed listener.new)
        (O.told log.old) (O.told log.new) result }
    ensures causes { HasServeCauses (L.bind_faults listener.old) (L.bind_faults listener.new)
        (L.accept_faults listener.old) (L.accept_faults listener.new)
        (O.faults log.old) (O.faults log.new) result }
{
    for before in 0..count {
        let Ok(mut client) = listener.accept() else {
            return ServeOutcome::AcceptFault;
        };
        let outcome = serve_client(alloc, proxy, &mut client, dialer);
        listener.give_back(client);
        match log_client(before + 1, outcome, log) {
            Ok(()) => {}
            Err(Failed) => return ServeOutcome::WriteFault,
        }
    }
    ServeOutcome::Done
}

/// Puts the line of a client into the log.
fn log_client<O: Sink>(number: u64, outcome: ClientOutcome, log: &mut O) -> Result<(), Failed>
    ensures { Puts O.Sink result log.old log.new (log_line number (client_status_of outcome)) }
{
    log.push(line(number, outcome.status()).as_slice())
}

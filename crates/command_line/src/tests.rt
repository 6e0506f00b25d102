//! Words through [`read_words`], with the commands that are owed.
use crate::{Command, Job, Policy, Refused, read_words};
use Job::{Explain, Filter};
use Policy::{Corb, Orb};
use std::alloc::Global;
use std::process::Abort;
use std::test::Fail;

/// What is owed: a command, or Usage.
#[derive(Clone, Copy, Debug)]
enum Owed {
    Judge(Job, Policy, u64),
    Trial(u64, u64),
    Mime(&'static str),
    Har,
    Type,
    Serve(&'static str, u64),
    Proxy(&'static str, u64),
    Usage,
}

use Owed::{Har, Judge, Mime, Proxy, Serve, Trial, Type, Usage};

/// Words with spaces between them, and what is owed; `_` stands for the word without text.
const ROWS: &[(&str, Owed)] = &[
    ("filter", Judge(Filter, Orb, 8_388_608)),
    ("explain", Judge(Explain, Orb, 8_388_608)),
    ("filter --policy orb", Judge(Filter, Orb, 8_388_608)),
    ("filter --policy corb", Judge(Filter, Corb, 8_388_608)),
    ("explain --policy=orb", Judge(Explain, Orb, 8_388_608)),
    ("explain --policy=corb", Judge(Explain, Corb, 8_388_608)),
    ("filter --limit 1024", Judge(Filter, Orb, 1_024)),
    ("filter --limit=268435456", Judge(Filter, Orb, 268_435_456)),
    (
        "filter --limit 0000000000000002048",
        Judge(Filter, Orb, 2_048),
    ),
    (
        "explain --limit=1024 --policy corb",
        Judge(Explain, Corb, 1_024),
    ),
    (
        "explain --policy corb --limit=1024",
        Judge(Explain, Corb, 1_024),
    ),
    (
        "filter --policy=corb --limit 4096",
        Judge(Filter, Corb, 4_096),
    ),
    (
        "filter --limit 4096 --policy corb",
        Judge(Filter, Corb, 4_096),
    ),
    ("trial 0 1", Trial(0, 1)),
    ("trial 7 1000000", Trial(7, 1_000_000)),
    (
        "trial 1000000000000000000 8",
        Trial(1_000_000_000_000_000_000, 8),
    ),
    ("mime text/html", Mime("text/html")),
    ("mime _", Mime("")),
    ("mime filter", Mime("filter")),
    ("mime text/ü", Mime("text/ü")),
    ("mime a=b", Mime("a=b")),
    ("serve 127.0.0.1:8080 1", Serve("127.0.0.1:8080", 1)),
    ("serve localhost:0 1000000", Serve("localhost:0", 1_000_000)),
    ("serve _ 3", Serve("", 3)),
    ("har", Har),
    ("type", Type),
    ("proxy 127.0.0.1:8080 1", Proxy("127.0.0.1:8080", 1)),
    ("proxy _ 1000000", Proxy("", 1_000_000)),
    ("", Usage),
    ("_", Usage),
    ("_ filter", Usage),
    ("filtr", Usage),
    ("filterü", Usage),
    ("Filter", Usage),
    ("filter filter", Usage),
    ("filter _", Usage),
    ("filter --limit 1023", Usage),
    ("filter --limit 268435457", Usage),
    ("filter --limit=", Usage),
    ("filter --limit _", Usage),
    ("filter --limit", Usage),
    ("filter --limit +2048", Usage),
    ("filter --limit 2048x", Usage),
    ("filter --limit 00000000000000002048", Usage),
    ("filter --limit 99999999999999999999", Usage),
    ("filter --limit=1024 --limit=1024", Usage),
    ("filter --limit 1024 --policy orb --limit 1024", Usage),
    ("filter --policy", Usage),
    ("filter --policy=", Usage),
    ("filter --policy ORB", Usage),
    ("filter --policy orb orb", Usage),
    ("filter --policy orb --policy corb", Usage),
    ("filter --policy --limit 1024", Usage),
    ("filter --policy=orb=corb", Usage),
    ("filter --polic orb", Usage),
    ("filter -p orb", Usage),
    ("filter -", Usage),
    ("filter --", Usage),
    ("filter --policy -- orb", Usage),
    ("-- filter", Usage),
    ("mime -- text/html", Usage),
    ("help", Usage),
    ("help filter", Usage),
    ("--help", Usage),
    ("-h", Usage),
    ("filter --help", Usage),
    ("mime -h", Usage),
    ("--version", Usage),
    ("-V", Usage),
    ("trial", Usage),
    ("trial 1", Usage),
    ("trial 0 0", Usage),
    ("trial 0 1000001", Usage),
    ("trial 1000000000000000001 1", Usage),
    ("trial +5 1", Usage),
    ("trial 1 2 3", Usage),
    ("mime", Usage),
    ("mime -x", Usage),
    ("mime -", Usage),
    ("mime a b", Usage),
    ("serve", Usage),
    ("serve localhost:0", Usage),
    ("serve localhost:0 0", Usage),
    ("serve localhost:0 1000001", Usage),
    ("serve localhost:0 +1", Usage),
    ("serve localhost:0 1 1", Usage),
    ("serve -x 1", Usage),
    ("har _", Usage),
    ("har a", Usage),
    ("har -", Usage),
    ("har --", Usage),
    ("har --policy orb", Usage),
    ("har har", Usage),
    ("type _", Usage),
    ("type a", Usage),
    ("type -x", Usage),
    ("type har", Usage),
    ("proxy", Usage),
    ("proxy a", Usage),
    ("proxy a 0", Usage),
    ("proxy a 1000001", Usage),
    ("proxy a +1", Usage),
    ("proxy a 1 1", Usage),
    ("proxy -x 1", Usage),
    ("proxy -- a 1", Usage),
];

fn answer_of(owed: Owed) -> Result<Command<'static>, Refused> {
    match owed {
        Judge(job, policy, limit) => Ok(Command::Judge { job, policy, limit }),
        Trial(seed, count) => Ok(Command::Trial { seed, count }),
        Mime(text) => Ok(Command::Mime(text.as_bytes())),
        Serve(address, count) => Ok(Command::Serve {
            address: address.as_bytes(),
            count,
        }),
        Har => Ok(Command::Har),
        Type => Ok(Command::Type),
        Proxy(address, count) => Ok(Command::Proxy {
            address: address.as_bytes(),
            count,
        }),
        Usage => Err(Refused::Usage),
    }
}

fn words_of(alloc: Global, line: &str) -> Result<Vec<String>, Fail> {
    let mut words = Vec::new(alloc);
    if line.is_empty() {
        return Ok(words);
    }
    for word in line.split(' ') {
        let text = if word == "_" { "" } else { word };
        words.push(String::from_str(alloc, text)?)?;
    }
    Ok(words)
}

fn owes(rt: &impl Abort, alloc: Global, line: &str, owed: Owed) -> Result<(), Fail> {
    let words = words_of(alloc, line)?;
    assert_eq!(rt; read_words(alloc, &words), answer_of(owed), "{line}");
    Ok(())
}

#[test]
fn words_are_read(rt: HostRuntime) -> Result<(), Fail> {
    for (line, owed) in ROWS {
        owes(&rt, rt.alloc(), line, *owed)?;
    }
    Ok(())
}

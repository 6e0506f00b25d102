//! Parser breakers.
ghost use Rattle.std.specs.Prelude.{IsTrue, ◌↔◌};
ghost use Rattle.corb_sniffers.specs.Breakers.{HasBreaker, BeginsWithBreaker};

use orb_bytes::{Row, first_row, trim_whitespace_start};

static BREAKERS: [Row; 5] = [
    Row {
        bytes: b")]}'",
        mask: b"\xff\xff\xff\xff",
    },
    Row {
        bytes: b"{}&&",
        mask: b"\xff\xff\xff\xff",
    },
    Row {
        bytes: b"{} &&",
        mask: b"\xff\xff\xff\xff\xff",
    },
    Row {
        bytes: b"for(;;);",
        mask: b"\xff\xff\xff\xff\xff\xff\xff\xff",
    },
    Row {
        bytes: b"while(1);",
        mask: b"\xff\xff\xff\xff\xff\xff\xff\xff\xff",
    },
];

/// Whether the window begins with a parser breaker after its leading white space.
pub fn has_breaker(window: &[u8]) -> bool
    ensures { IsTrue result ↔ HasBreaker window.now }
{
    begins_with_breaker(trim_whitespace_start(window))
}

/// Whether the text begins with a parser breaker.
fn begins_with_breaker(text: &[u8]) -> bool
    ensures { IsTrue result ↔ BeginsWithBreaker text.now }
{
    first_row(&BREAKERS, text).is_some()
}

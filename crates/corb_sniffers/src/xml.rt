//! XML.
ghost use Rattle.std.specs.Prelude.{IsTrue, ◌↔◌};
ghost use Rattle.corb_sniffers.specs.Xml.{SniffsXml};

use orb_bytes::trim_whitespace_start;

/// Whether the window begins with `<?xml` after its leading white space.
pub fn sniffs_xml(window: &[u8]) -> bool
    ensures { IsTrue result ↔ SniffsXml window.now }
{
    trim_whitespace_start(window).starts_with(b"<?xml")
}

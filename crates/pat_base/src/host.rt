//! Hosts of members.
ghost use Rattle.std.specs.Prelude.{◌≡◌, IsTrue};
ghost use Rattle.std.specs.List.{list_all};
ghost use Rattle.pat_base.specs.HostText.{is_host, is_host_byte};
ghost use Rattle.pat_base.specs.ShortText.{text_bytes};

use crate::short_text::ShortText;
use std::fmt;

/// The longest host, in bytes.
const LONGEST: usize = 40;

/// Where a member is reached, which is the host of Patroni's settings `connect_address` (Patroni, "YAML Configuration
/// Settings", under "PostgreSQL" and "REST API"): 1 to 40 bytes of `a` to `z`, `A` to `Z`, `0` to `9`, `.`, `:` and `-`.
/// So a host name of few bytes is one, and an address of either version of IP.
#[derive(Clone, Copy, Debug, PartialEq, Eq, PartialOrd, Ord, Hash)]
pub struct Host {
    text: ShortText<LONGEST>,
    ghost legal: { IsTrue (is_host (text_bytes text)) },
}

impl Host {
    ghost use Rattle.std.specs.Prelude.{◌≡◌, ◌↔◌, IsSome, IfSome, IsTrue};
    ghost use Rattle.pat_base.specs.HostText.{is_host};
    ghost use Rattle.pat_base.specs.Host.{host_bytes, local_host};

    /// The host that these bytes are. `None` exactly where they are none.
    pub fn read(bytes: &[u8]) -> Option<Host>
        ensures found { IsSome result ↔ IsTrue (is_host bytes.now) }
        ensures text { IfSome result (λ host. host_bytes host ≡ bytes.now) }
    {
        if is_host(bytes) {
            Some(made(bytes))
        } else {
            None
        }
    }

    /// Where a member is reached that declares no host: `127.0.0.1`.
    pub fn local() -> Host
        ensures { result ≡ local_host }
    {
        made(b"127.0.0.1")
    }

    /// The bytes of the host, which are ASCII.
    pub fn as_bytes(&self) -> &[u8]
        ensures value { result.now ≡ host_bytes self.now }
        ensures host { IsTrue (is_host result.now) }
    {
        self.text.as_bytes()
    }

    /// The host as text.
    pub fn as_str(&self) -> &str
        ensures { result.now ≡ host_bytes self.now }
    {
        self.text.as_str()
    }
}

impl fmt::Display for Host {
    ghost use Rattle.std.specs.Prelude.{Some};
    ghost use Rattle.pat_base.specs.Host.{host_bytes};

    ghost output = { λ host. Some (host_bytes host) };

    fn fmt<W: fmt::Write>(&self, f: &mut fmt::Formatter<W>) -> fmt::Result {
        f.write_str(self.as_str())
    }
}

/// The host of bytes that are one.
fn made(bytes: &[u8]) -> Host
    requires { IsTrue (is_host bytes.now) }
    ensures { text_bytes result.text ≡ bytes.now }
{
    Host {
        text: ShortText::new(bytes),
    }
}

fn is_host(bytes: &[u8]) -> bool
    ensures { result ≡ is_host bytes.now }
{
    !bytes.is_empty() && bytes.len() <= LONGEST && are_host_bytes(bytes)
}

fn are_host_bytes(bytes: &[u8]) -> bool
    ensures { result ≡ list_all is_host_byte bytes.now }
{
    bytes.iter().all(|byte| is_host_byte(*byte))
}

fn is_host_byte(byte: u8) -> bool
    ensures { result ≡ is_host_byte byte }
{
    matches!(byte, b'a'..=b'z' | b'A'..=b'Z' | b'0'..=b'9' | b'.' | b':' | b'-')
}

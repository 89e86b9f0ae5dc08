//! Short text that lies where its holder lies.
ghost use Rattle.std.specs.Prelude.{◌≡◌, ◌≤◌, length, take};
ghost use Rattle.std.specs.Str.{IsAscii};
ghost use Rattle.pat_base.specs.Bounded.{padded};

/// ASCII text of at most `ROOM` bytes, which is copied without memory. The bytes behind it are 0, so that texts of the
/// same bytes are one. What a text may be beyond that, its holder says.
#[derive(Clone, Copy, Debug, PartialEq, Eq, PartialOrd, Ord, Hash)]
pub(crate) struct ShortText<const ROOM: usize> {
    bytes: [u8; ROOM],
    len: u8,
    ghost full: { length bytes ≡ ROOM },
    ghost fits: { len ≤ ROOM },
    ghost ascii: { IsAscii (take len bytes) },
    ghost zeros: { bytes ≡ padded ROOM (take len bytes) },
}

impl<const ROOM: usize> ShortText<ROOM> {
    ghost use Rattle.std.specs.Prelude.{◌≡◌, ◌≤◌, ◌<◌, ◌^◌, length};
    ghost use Rattle.std.specs.Str.{IsAscii};
    ghost use Rattle.pat_base.specs.ShortText.{text_bytes};

    /// The text of these bytes.
    pub(crate) fn new(bytes: &[u8]) -> ShortText<ROOM>
        requires fits { length bytes.now ≤ ROOM }
        requires counted { length bytes.now < 2 ^ 8 }
        requires ascii { IsAscii bytes.now }
        ensures { text_bytes result ≡ bytes.now }
    {
        let mut all = [0u8; ROOM];
        all[..bytes.len()].copy_from_slice(bytes);
        ShortText {
            bytes: all,
            len: bytes.len() as u8,
        }
    }

    /// The bytes of the text.
    pub(crate) fn as_bytes(&self) -> &[u8]
        ensures value { result.now ≡ text_bytes self.now }
        ensures ascii { IsAscii result.now }
    {
        &self.bytes[..self.len as usize]
    }

    /// The text.
    pub(crate) fn as_str(&self) -> &str
        ensures { result.now ≡ text_bytes self.now }
    {
        match str::from_utf8(self.as_bytes()) {
            Ok(text) => text,
            Err(_) => unreachable!(),
        }
    }
}

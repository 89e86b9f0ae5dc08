//! Grants.
ghost use Rattle.std.specs.Prelude.{◌≡◌};

use pat_base::MemberId;

/// The store granted a request. It comes from the store alone and isn't copied, so whoever has one was granted its request.
#[derive(Drop)]
pub struct Granted {
    revision: u64,
    by: MemberId,
    leased: bool,
}

impl Granted {
    /// The grant of this revision.
    pub(crate) fn of(revision: u64, by: MemberId, leased: bool) -> Granted
        ensures { result ≡ record { revision = revision; by = by; leased = leased } }
    {
        Granted {
            revision,
            by,
            leased,
        }
    }

    /// The revision of the grant, which every key has that it wrote: 1 above that of the grant before.
    pub fn revision(&self) -> u64
        ensures { result ≡ self.now.revision }
    {
        self.revision
    }

    /// Whose request it was.
    pub fn by(&self) -> MemberId
        ensures { result ≡ self.now.by }
    {
        self.by
    }

    /// Whether it gave or extended the lease of the leader key: exactly for a create and a renewal.
    pub fn leased(&self) -> bool
        ensures { result ≡ self.now.leased }
    {
        self.leased
    }
}

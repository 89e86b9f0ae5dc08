//! How far a member lags, and how far it may.
ghost use Rattle.std.specs.Prelude.{◌≡◌, option_copied};
ghost use Rattle.rest_facts.specs.Lags.{limit_of, status_on, is_within, is_within_limit};

use cluster_view::Snapshot;
use pat_base::{Lsn, Size};

/// How many bytes a member may lag, by the parameter `lag` of a query. No parameter sets no limit, and nor does a value that is no
/// size.
pub(crate) fn limit_of(lag: Option<&[u8]>) -> Option<u64>
    ensures { result ≡ limit_of (option_copied lag.entry) }
{
    Size::read(lag?).ok()
}

/// Where the leader's log ends, as it told last.
pub(crate) fn status_on(seen: Option<&Snapshot>) -> Option<Lsn>
    ensures { result ≡ status_on (option_copied seen.entry) }
{
    seen?.status()
}

/// Whether a log that ends here lags no further than this limit, if there is one, behind what the leader told.
pub(crate) fn is_within_limit(limit: Option<u64>, status: Option<Lsn>, end: Option<Lsn>) -> bool
    ensures { result ≡ is_within_limit limit status end }
{
    match limit {
        None => true,
        Some(limit) => is_within(limit, status, end),
    }
}

fn is_within(limit: u64, status: Option<Lsn>, end: Option<Lsn>) -> bool
    ensures { result ≡ is_within limit status end }
{
    match (status, end) {
        (None, _) => true,
        (Some(_), None) => false,
        (Some(status), Some(end)) => status.position.saturating_sub(end.position) <= limit,
    }
}

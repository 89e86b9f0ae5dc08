//! Runs of entries.
ghost use Rattle.std.specs.Prelude.{◌≡◌, ◌≤◌, ◌+◌, ◌^◌, length, take};
ghost use Rattle.wal_model.specs.Log.{end_of, common_of};

use crate::Entry;

/// The sum of the bytes of entries of a log.
pub(crate) fn bytes_of(entries: &[Entry]) -> u64
    requires { end_of entries.now ≤ 2 ^ 63 }
    ensures { result ≡ end_of entries.now }
{
    entries.iter().map(|entry| entry.bytes).sum()
}

/// With how many entries both lists begin.
pub(crate) fn common_len(mine: &[Entry], theirs: &[Entry]) -> usize
    ensures common { take result mine.now ≡ common_of mine.now theirs.now }
    ensures within { result ≤ length mine.now }
{
    let most = mine.len().min(theirs.len());
    for place in 0..most {
        if mine[place] != theirs[place] {
            return place;
        }
    }
    most
}

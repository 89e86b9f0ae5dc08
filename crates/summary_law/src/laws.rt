//! The summary tells what the book says, in its own words.
ghost use Rattle.std.specs.Prelude.{ℕ, ◌≡◌, ◌≤◌, ◌++◌, ◌↔◌, true, false, List, [], ◌∷◌, length, replicate, Option, None};
ghost use Rattle.pat_base.specs.declared.name.Name.{Name};
ghost use Rattle.store_keys.specs.Settings.{Settings};
ghost use Rattle.event_book.specs.Kept.{KeepsCommits};
ghost use Rattle.event_book.specs.Kinds.{AllAre};
ghost use Rattle.event_book.specs.Logs.{Logs};
ghost use Rattle.event_book.specs.Writers.{HasOneWriter};
ghost use Rattle.event_book.specs.declared.event.Event.{Event};
ghost use Rattle.event_book.specs.declared.event.EventKind.{EventKind};
ghost use Rattle.event_book.specs.declared.event.EventKind.TheVariants.{Server, Replication};
ghost use Rattle.event_book.specs.declared.event.ReplicationEvent.TheVariants.{Acknowledged};
ghost use Rattle.event_book.specs.declared.event.ServerEvent.TheVariants.{Began};
ghost use Rattle.event_book.specs.declared.member.ServerOf.{ServerOf};
ghost use Rattle.event_book.specs.declared.reason.Basis.{Basis};
ghost use Rattle.event_book.specs.Premises.{ArePremisesMet, Moments};
ghost use Rattle.summary_model.specs.declared.answers.Closing.{Closing};
ghost use Rattle.summary_model.specs.declared.answers.Seen.{Seen};
ghost use Rattle.summary_model.specs.declared.answers.TheConstants.{SERVERS};
ghost use Rattle.pat_base.specs.declared.member_id.TheConstants.{MOST_MEMBERS};
ghost use Rattle.summary_model.specs.declared.answers.WatchOf.{WatchOf};
ghost use Rattle.summary_model.specs.Claims.{AreCommitsGuarded, IsGuarded, IsSummaryOf, KeepMode, WatchStandsFor, margin_of, works_of};
ghost use Rattle.summary_model.specs.Heads.{watch_of};
ghost use Rattle.summary_model.specs.Noting.{WatchFacts, noted, writers_after};
ghost use Rattle.summary_model.specs.Listed.{AreListed, AreNamed, NamesServer};
ghost use Rattle.summary_model.specs.Losses.{WriterLacksOf, may_lose};
ghost use Rattle.summary_model.specs.Sights.{SummaryFacts, noted_step};
ghost use Rattle.summary_model.specs.Seeing.{AreSeen, IsLatenessOn, IsSeen, LacksOne, Sighting, WriterLacks, events_in, noted_over};

/// Each answer of the summary is so of the book whose events were noted, where what was seen beside each was right.
pub fn summary_tells_the_book()
    // Before the first event it stands for the book without one.
    ensures first { (members : List WatchOf) (first : Settings) (logs : Logs) → length members ≤ MOST_MEMBERS → WatchStandsFor members first logs [] (watch_of members first.config) }
    // Noting an event keeps that, for who keeps no list of them.
    ensures each { (members : List WatchOf) (first : Settings) (logs : Logs) (book : List Event) (facts : WatchFacts) (event : Event) (seen : Seen)
        → WatchStandsFor members first logs book facts → IsSeen logs book facts.closing.lost event seen
        → WatchStandsFor members first logs (book ++ event ∷ []) (noted facts event.kind seen) }
    // So it is after all of them.
    ensures all { (members : List WatchOf) (first : Settings) (logs : Logs) (sightings : List Sighting)
        → length members ≤ MOST_MEMBERS → AreSeen logs [] (watch_of members first.config) sightings
        → IsSummaryOf members first logs (events_in sightings) (noted_over (watch_of members first.config) sightings).closing }
{}

/// Where each front of a book that meets the premises has one writer, its summary says so: with the premises met two servers never
/// accepted writes, and with the premises broken they didn't before.
pub fn premises_guard_writers()
    ensures { (members : List WatchOf) (first : Settings) (logs : Logs) (book : List Event) (closing : Closing)
        → IsSummaryOf members first logs book closing
        → ((front rest : List Event) → front ++ rest ≡ book → ArePremisesMet (margin_of members) (works_of members) first front → HasOneWriter front)
        → IsGuarded closing.premises closing.two_writers }
{}

/// Where each front of a book that meets the premises, with synchronous mode on, holds its commits, its summary says so of a cluster that
/// begins with the mode on: with both none was ever lost, and else none was before the first of them was broken.
pub fn premises_guard_commits()
    ensures { (members : List WatchOf) (first : Settings) (logs : Logs) (book : List Event) (closing : Closing)
        → IsSummaryOf members first logs book closing → first.config.synchronous_mode ≡ true
        → ((front rest : List Event) → front ++ rest ≡ book → ArePremisesMet (margin_of members) (works_of members) first front → KeepMode true front → KeepsCommits logs front)
        → AreCommitsGuarded closing.premises closing.synchronous closing.lost }
{}

/// Which events may lose a commit where none was lost before, for who keeps track of it: where a server begins, its own log decides;
/// where a commit is acknowledged, the logs of those that accept writes do; where a log only grows, and in all else, none is lost.
pub fn few_events_lose()
    ensures others { (logs : Logs) (book : List Event) (event : Event) → may_lose event.kind ≡ false → KeepsCommits logs book → WriterLacks logs (book ++ event ∷ []) → ⊥ }
    ensures began { (logs : Logs) (book : List Event) (event : Event) (server : ServerOf) (timeline : ℕ) → event.kind ≡ Server (Began server timeline)
        → KeepsCommits logs book → WriterLacks logs (book ++ event ∷ []) ↔ LacksOne logs book server.id.number }
    ensures acknowledged { (logs : Logs) (book : List Event) (event : Event) (server : ServerOf) (commit : ℕ) → event.kind ≡ Replication (Acknowledged server commit)
        → KeepsCommits logs book → WriterLacks logs (book ++ event ∷ []) ↔ WriterLacksOf logs book commit }
{}

/// A feed has one lateness.
pub fn lateness_is_determined()
    ensures { (moments : Moments) (m : ℕ) (basis : Basis) (n k : ℕ) → IsLatenessOn moments m basis n → IsLatenessOn moments m basis k → n ≡ k }
{}

/// The names of the writers are listed in byte order; and each is that of the server of its number, where the events in which servers begin
/// have these names.
pub fn writers_are_listed()
    ensures listed { (writers : List (Option Name)) → AreListed writers }
    ensures first { (names : ℕ → Option Name) → AreNamed names (replicate SERVERS None) }
    ensures each { (names : ℕ → Option Name) (writers : List (Option Name)) (kind : EventKind) → NamesServer names kind → AreNamed names writers → AreNamed names (writers_after writers kind) }
    ensures step { (names : ℕ → Option Name) (facts : SummaryFacts) (events : List Event) → AllAre (NamesServer names) events
        → AreNamed names facts.watch.closing.writers → AreNamed names (noted_step facts events).watch.closing.writers }
{}

//! Laws of books.
ghost use Rattle.std.specs.Prelude.{ℕ, ◌≡◌, ◌<◌, ◌≤◌, ◌++◌, ◌&&◌, ◌||◌, not, true, false, List, length, Option, Some, slice_get};
ghost use Rattle.pat_base.specs.declared.member_id.TheConstants.{MOST_MEMBERS};
ghost use Rattle.pat_base.specs.declared.ticks.Ticks.{Ticks};
ghost use Rattle.pat_base.specs.ServerState.{live};
ghost use Rattle.wal_model.specs.declared.entry.Entry.{Entry};
ghost use Rattle.pg_model.specs.Facts.{ServerFacts, is_replica};
ghost use Rattle.pg_model.specs.Replication.{received_from};
ghost use Rattle.pg_model.specs.Running.{is_primary, restarted, stopped, wiped};
ghost use Rattle.event_book.specs.declared.event.Event.{Event};
ghost use Rattle.event_book.specs.declared.event.EventKind.{EventKind};
ghost use Rattle.event_book.specs.declared.event.EventKind.TheVariants as kinds;
ghost use Rattle.event_book.specs.declared.event.LinkEvent.TheVariants as links;
ghost use Rattle.event_book.specs.declared.event.LogEvent.TheVariants as logs;
ghost use Rattle.event_book.specs.declared.link.Link.{Link};
ghost use Rattle.event_book.specs.declared.member.ServerOf.{ServerOf};
ghost use Rattle.event_book.specs.Acknowledged.{acknowledged_in};
ghost use Rattle.event_book.specs.Facts.{Facts, facts_after, facts_over};
ghost use Rattle.event_book.specs.Links.{CutLinks, cuts_after, is_cut, is_same_link, none_cut, place_count};
ghost use Rattle.event_book.specs.Logs.{logs_in, logs_over};
ghost use Rattle.event_book.specs.Remote.{server_at};
ghost use Rattle.event_book.specs.Required.{required_in, required_over, confirmed_in, confirmed_over};
ghost use Rattle.event_book.specs.Servers.{begun_in, loses_log, starts_as_primary, starts_as_replica, starts_slowly, supplied};
ghost use Rattle.event_book.specs.Writers.{writes_in, writes_over};

/// What a book leaves of the servers is, part by part, what the book alone says: their logs, whose confirmation their commits wait
/// for, what was confirmed to them, which of them accept writes, and which commits were acknowledged.
pub fn servers_match_events()
    ensures logs { (facts : Facts) (book : List Event) → logs_in (facts_over facts book) ≡ logs_over (logs_in facts) book }
    ensures required { (facts : Facts) (book : List Event) → required_in (facts_over facts book).servers ≡ required_over (required_in facts.servers) book }
    ensures confirmed { (facts : Facts) (book : List Event) → confirmed_in (facts_over facts book).servers ≡ confirmed_over (confirmed_in facts.servers) book }
    ensures writers { (facts : Facts) (book : List Event) (n : ℕ) → n < length facts.servers → writes_in (facts_over facts book).servers n ≡ writes_over (writes_in facts.servers) book n }
    ensures acknowledged { (facts : Facts) (book : List Event) → (facts_over facts book).acknowledged ≡ facts.acknowledged ++ acknowledged_in book }
    // No event adds a server, or takes one away.
    ensures count { (facts : Facts) (book : List Event) → length (facts_over facts book).servers ≡ length facts.servers }
{}

/// A server is found by its number: that of a member in the list, and the remote primary beside it, under the first number that no
/// member has. So what is received from the remote isn't lost, and what is committed there concerns no member's server.
pub fn a_remote_is_found()
    ensures member { (known : List ServerFacts) (remote : Option ServerFacts) (n : ℕ) → n < MOST_MEMBERS → server_at known remote n ≡ slice_get known n }
    ensures received { (facts : Facts) (server from : ServerOf) (count : ℕ) (s remote : ServerFacts)
        → length facts.servers ≤ MOST_MEMBERS → from.id.number ≡ MOST_MEMBERS → facts.remote ≡ Some remote → slice_get facts.servers server.id.number ≡ Some s
        → slice_get (facts_after facts (kinds.Log (logs.Received server from count))).servers server.id.number ≡ Some (received_from count s remote) }
    ensures supplied { (facts : Facts) (from : ServerOf) (entry : Entry) (remote : ServerFacts)
        → from.id.number ≡ MOST_MEMBERS → facts.remote ≡ Some remote → (facts_after facts (kinds.Log (logs.Appended from entry))).remote ≡ Some (supplied entry remote) }
    ensures apart { (facts : Facts) (from : ServerOf) (entry : Entry)
        → length facts.servers ≤ MOST_MEMBERS → from.id.number ≡ MOST_MEMBERS → (facts_after facts (kinds.Log (logs.Appended from entry))).servers ≡ facts.servers }
{}

/// What the events of a restart leave of a server is what the restart makes of it, and that its log is wiped leaves what a wipe
/// makes of it. A primary ends and starts again, at once or slowly; of a replica the start alone is told.
pub fn restarts_and_wipes_are_told()
    ensures at_once { (now : Ticks) (s : ServerFacts) → is_primary s.state ≡ true → starts_slowly s ≡ false → begun_in (stopped s).state (stopped s) ≡ restarted now s }
    ensures slow { (now : Ticks) (s : ServerFacts) → is_primary s.state ≡ true → starts_slowly s ≡ true → starts_as_primary now.0 (stopped s) ≡ restarted now s }
    ensures replica { (now : Ticks) (s : ServerFacts) → is_replica s.state ≡ true → starts_as_replica now.0 s ≡ restarted now s }
    ensures wipe { (s : ServerFacts) → live s.state ≡ false → loses_log s ≡ wiped s }
{}

/// What the table of links says is what cuts and joins say: after a cut that link is cut and after a join it isn't, whichever
/// end is named first, and any other link is as it was.
pub fn links_are_told()
    ensures first { (link : Link) → is_cut none_cut link ≡ false }
    ensures cut { (cuts : CutLinks) (cut link : Link) → length cuts ≡ place_count → is_cut (cuts_after cuts (kinds.Link (links.Cut cut))) link ≡ (is_same_link cut link || is_cut cuts link) }
    ensures joined { (cuts : CutLinks) (joined link : Link) → is_cut (cuts_after cuts (kinds.Link (links.Joined joined))) link ≡ (not (is_same_link joined link) && is_cut cuts link) }
    // The table has a place for each link, before the first event and after each.
    ensures whole { length none_cut ≡ place_count }
    ensures count { (cuts : CutLinks) (kind : EventKind) → length (cuts_after cuts kind) ≡ length cuts }
{}

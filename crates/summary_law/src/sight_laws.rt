//! The summary of the steps of a run tells what the book says, where silent events tell what is seen beside the others.
ghost use Rattle.std.specs.Prelude.{◌≡◌, ◌≤◌, ◌++◌, List, [], length};
ghost use Rattle.store_keys.specs.Settings.{Settings};
ghost use Rattle.event_book.specs.Logs.{Logs};
ghost use Rattle.event_book.specs.Writers.{HasOneWriter};
ghost use Rattle.event_book.specs.declared.event.Event.{Event};
ghost use Rattle.event_book.specs.Premises.{ArePremisesMet, first_moments};
ghost use Rattle.pat_base.specs.declared.member_id.TheConstants.{MOST_MEMBERS};
ghost use Rattle.summary_model.specs.declared.answers.WatchOf.{WatchOf};
ghost use Rattle.summary_model.specs.Claims.{IsGuarded, IsSummaryOf, WatchStandsFor, margin_of, works_of};
ghost use Rattle.summary_model.specs.Moments.{moments_over};
ghost use Rattle.summary_model.specs.Noting.{WatchFacts};
ghost use Rattle.summary_model.specs.Seeing.{AreSeen};
ghost use Rattle.summary_model.specs.Sights.{SummaryFacts, book_of, first_since, noted_step, noted_steps, sightings_of, summary_of};
ghost use Rattle.summary_model.specs.Telling.{AreMeasured, EachTellsLosses, TellLosses, WatchStandsButForLosses};

/// Where the events tell from when each feed is measured, and the first loss, what is seen beside each event is right, and each
/// answer of the summary is so of the book.
pub fn sights_are_right()
    // The sightings of one more step are right.
    ensures seen { (members : List WatchOf) (first : Settings) (logs : Logs) (book : List Event) (facts : SummaryFacts) (events : List Event)
        → WatchStandsFor members first logs book facts.watch
        → AreMeasured (moments_over first_moments book) facts.since events → TellLosses logs book events
        → AreSeen logs book facts.watch (sightings_of facts.watch.closing.end facts.since events) }
    // So the step keeps that the summary stands for the book, for who keeps no list of steps.
    ensures each { (members : List WatchOf) (first : Settings) (logs : Logs) (book : List Event) (facts : SummaryFacts) (events : List Event)
        → WatchStandsFor members first logs book facts.watch
        → AreMeasured (moments_over first_moments book) facts.since events → TellLosses logs book events
        → WatchStandsFor members first logs (book ++ events) (noted_step facts events).watch }
    // After all steps the answers are so.
    ensures all { (members : List WatchOf) (first : Settings) (logs : Logs) (steps : List (List Event))
        → length members ≤ MOST_MEMBERS → AreMeasured first_moments first_since (book_of steps) → EachTellsLosses logs [] steps
        → IsSummaryOf members first logs (book_of steps) (noted_steps (summary_of members first.config) steps).watch.closing }
{}

/// Whether losses are told matters only to what the summary says of lost commits: each other answer is so where the events tell
/// from when each feed is measured.
pub fn measured_sights_suffice()
    // Before the first event, and step by step.
    ensures first { (members : List WatchOf) (first : Settings) → length members ≤ MOST_MEMBERS → WatchStandsButForLosses members first [] (summary_of members first.config).watch }
    ensures each { (members : List WatchOf) (first : Settings) (book : List Event) (facts : SummaryFacts) (events : List Event)
        → WatchStandsButForLosses members first book facts.watch → AreMeasured (moments_over first_moments book) facts.since events
        → WatchStandsButForLosses members first (book ++ events) (noted_step facts events).watch }
    // After all steps.
    ensures all { (members : List WatchOf) (first : Settings) (steps : List (List Event))
        → length members ≤ MOST_MEMBERS → AreMeasured first_moments first_since (book_of steps)
        → WatchStandsButForLosses members first (book_of steps) (noted_steps (summary_of members first.config) steps).watch }
    // With one writer at each front that meets the premises: with the premises met two servers never accepted writes, and with
    // the premises broken they didn't before.
    ensures watched { (members : List WatchOf) (first : Settings) (book : List Event) (facts : WatchFacts)
        → WatchStandsButForLosses members first book facts
        → ((front rest : List Event) → front ++ rest ≡ book → ArePremisesMet (margin_of members) (works_of members) first front → HasOneWriter front)
        → IsGuarded facts.closing.premises facts.closing.two_writers }
    ensures guard { (members : List WatchOf) (first : Settings) (steps : List (List Event))
        → length members ≤ MOST_MEMBERS → AreMeasured first_moments first_since (book_of steps)
        → ((front rest : List Event) → front ++ rest ≡ book_of steps → ArePremisesMet (margin_of members) (works_of members) first front → HasOneWriter front)
        → let closing = (noted_steps (summary_of members first.config) steps).watch.closing in IsGuarded closing.premises closing.two_writers }
{}

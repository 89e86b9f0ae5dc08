//! Laws of moments, for readers of their definitions. Each is a function without a body whose contract is what is
//! proved.
ghost use Rattle.std.specs.Prelude.{ℕ, ℤ, ◌≡◌, ◌≤ℤ◌, ◌<◌, ◌≤◌, List, Ok, Err, pos, codes};
ghost use Rattle.pat_base.specs.declared.ticks.Ticks.{Ticks};
ghost use Rattle.jiff_fmt.specs.Temporal.{parse_timestamp};
ghost use Rattle.schedule_at.specs.Clock.{first_tick_from, instant_of, IsFirstTickFrom};
ghost use Rattle.schedule_at.specs.Moments.{moment_of};
ghost use Rattle.schedule_at.specs.declared.fault.MomentFault.TheVariants as faults;

/// The tick of an instant is the first whose own instant isn't before it.
pub fn moments_are_first_ticks()
    ensures { (instant : ℤ) → IsFirstTickFrom instant (first_tick_from instant).0 }
{}

/// A moment that is read is after the present, and its own instant isn't before the one that its text names. A text is
/// refused as past only where its instant isn't after that of the present tick.
pub fn what_is_read_is_to_come()
    ensures future { (text : List ℕ) (present : ℕ) (at : Ticks) → moment_of text present ≡ Ok at → present < at.0 }
    ensures reached { (text : List ℕ) (present : ℕ) (at : Ticks) (instant : ℤ) → moment_of text present ≡ Ok at → parse_timestamp text ≡ Ok instant → instant ≤ℤ instant_of at.0 }
    ensures past { (text : List ℕ) (present : ℕ) (instant : ℤ) → moment_of text present ≡ Err faults.Past → parse_timestamp text ≡ Ok instant → instant ≤ℤ instant_of present }
{}

/// 25 seconds after tick 0 is tick 250, and a hundredth of a second later is tick 251.
pub fn fractions_round_up()
    ensures whole { moment_of (codes "2024-01-01T00:00:25Z") 0 ≡ Ok (record { 0 = 250 }) }
    ensures part { moment_of (codes "2024-01-01T00:00:25.01Z") 0 ≡ Ok (record { 0 = 251 }) }
{}

/// A moment may be told in any zone, and in each form in which jiff reads an instant: in lower case, with a space, with
/// a comma, in basic form, without seconds. A leap second is the second before. What stands in brackets behind it is
/// ignored.
pub fn one_moment_has_many_texts()
    ensures zone { moment_of (codes "2024-01-01T01:00:25+01:00") 0 ≡ Ok (record { 0 = 250 }) }
    ensures lower { moment_of (codes "2024-01-01t00:00:25z") 0 ≡ Ok (record { 0 = 250 }) }
    ensures space { moment_of (codes "2024-01-01 00:00:25Z") 0 ≡ Ok (record { 0 = 250 }) }
    ensures comma { moment_of (codes "2024-01-01T00:00:25,000000001Z") 0 ≡ Ok (record { 0 = 251 }) }
    ensures basic { moment_of (codes "20240101T000025Z") 0 ≡ Ok (record { 0 = 250 }) }
    ensures minutes { moment_of (codes "2024-01-01T00:01Z") 0 ≡ Ok (record { 0 = 600 }) }
    ensures leap { moment_of (codes "2024-12-31T23:59:60Z") 0 ≡ moment_of (codes "2024-12-31T23:59:59Z") 0 }
    ensures named { moment_of (codes "2024-01-01T00:00:25Z[Europe/Paris][u-ca=hebrew]") 0 ≡ Ok (record { 0 = 250 }) }
    ensures offset { moment_of (codes "2024-01-01T00:00:25-00:00:00.5") 0 ≡ Ok (record { 0 = 260 }) }
{}

/// Without an offset, without a time, at 24 o'clock, with ten digits of a fraction, with more behind it, on a day that
/// there isn't, or by a number of seconds no moment is told. One at tick 0 or before is past, in years before Christ
/// too.
pub fn some_texts_are_no_moment()
    ensures no_offset { moment_of (codes "2024-01-01T00:00:25") 0 ≡ Err faults.BadMoment }
    ensures no_time { moment_of (codes "2024-01-01Z") 0 ≡ Err faults.BadMoment }
    ensures midnight { moment_of (codes "2024-01-01T24:00:00Z") 0 ≡ Err faults.BadMoment }
    ensures ten_digits { moment_of (codes "2024-01-01T00:00:25.0000000001Z") 0 ≡ Err faults.BadMoment }
    ensures trailing { moment_of (codes "2024-01-01T00:00:25Z ") 0 ≡ Err faults.BadMoment }
    ensures day { moment_of (codes "2023-02-29T00:00:25Z") 0 ≡ Err faults.BadMoment }
    ensures number { moment_of (codes "1704067225") 0 ≡ Err faults.BadMoment }
    ensures short_year { moment_of (codes "-1-01-01T00:00:00Z") 0 ≡ Err faults.BadMoment }
    ensures year_zero { moment_of (codes "-000000-01-01T00:00:00Z") 0 ≡ Err faults.BadMoment }
    ensures negative { moment_of (codes "-000001-01-01T00:00:00Z") 0 ≡ Err faults.Past }
    ensures zero { moment_of (codes "2024-01-01T00:00:00Z") 0 ≡ Err faults.Past }
    ensures soon { moment_of (codes "soon") 0 ≡ Err faults.BadMoment }
    ensures far { moment_of (codes "+009999-12-31T23:59:59Z") 0 ≡ Err faults.BadMoment }
{}

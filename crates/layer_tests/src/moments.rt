//! Moments of scheduled actions.
use crate::checks::{has, has_words};
use pat_base::Ticks;
use schedule_at::{MomentFault, is_due, moment};

/// The moment that a text names at tick 0.
fn read(text: &str) -> Result<Ticks, MomentFault> {
    moment(text, Ticks(0))
}

#[test]
fn moments(rt: HostRuntime) {
    let in_time = read("2024-01-01T00:00:25Z");
    has(&rt, &in_time, &Ok(Ticks(250)));
    let between_ticks = read("2024-01-01T00:00:25.01Z");
    has(&rt, &between_ticks, &Ok(Ticks(251)));
    let elsewhere = read("2024-01-01T01:00:00+01:00");
    has(&rt, &elsewhere, &Err(MomentFault::Past));
    has(&rt, &read("soon"), &Err(MomentFault::BadMoment));
    has(&rt, &is_due(Ticks(250), Ticks(249)), &false);
    has(&rt, &is_due(Ticks(250), Ticks(250)), &true);
}

#[test]
fn texts_of_moment_faults(rt: HostRuntime) {
    let alloc = rt.alloc();
    has_words(&rt, alloc, &MomentFault::BadMoment, "bad moment");
    has_words(&rt, alloc, &MomentFault::Past, "moment is in the past");
}

//! The race for a free leader key: who may race, and who wins.
#![tactic(auto)]

mod bars;
mod eligibility;
mod laws;
mod outcome;
mod racer;

pub use bars::{bar_where, first_bar, judged};
pub use eligibility::{may_fail_over, may_race};
pub use laws::{
    own_answers_never_count, the_first_declared_bars, two_that_compare_do_not_both_win,
    who_may_race, who_wins,
};
pub use outcome::{
    ahead, earlier, is_compared, other_writes, priority, racer_of, unless, wins, wins_by,
};
pub use racer::{RaceKeys, Racer};

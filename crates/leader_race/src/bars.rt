//! What bars a member, by rules of which the first that applies counts.
ghost use Rattle.std.specs.Prelude.{◌≡◌};
ghost use Rattle.std.specs.Result.{result_err};
ghost use Rattle.leader_race.specs.Bars.{bar_where, first_bar};

use pat_base::Ineligibility;

/// This bars, where it is so.
pub fn bar_where(applies: bool, bar: Ineligibility) -> Option<Ineligibility>
    ensures { result ≡ bar_where applies bar }
{
    if applies { Some(bar) } else { None }
}

/// What bars by the first of these rules that applies. `None` exactly where none does.
pub fn first_bar(rules: &[Option<Ineligibility>]) -> Option<Ineligibility>
    ensures { result ≡ first_bar rules.now }
{
    for rule in rules {
        if let Some(bar) = rule {
            return Some(*bar);
        }
    }
    None
}

/// Whether nothing bars, or what does.
pub fn judged(bar: Option<Ineligibility>) -> Result<(), Ineligibility>
    ensures { result_err result ≡ bar }
{
    match bar {
        None => Ok(()),
        Some(bar) => Err(bar),
    }
}

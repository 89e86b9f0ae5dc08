//! The options of a member's line.
ghost use Rattle.std.specs.Prelude.{◌≡◌, Option, None, Some, Ok};
ghost use Rattle.std.specs.Option.{option_copied};
ghost use Rattle.member_options.specs.Options.{option_name_text, name_of_option, host_or_default, priority_or_default, tags_or_default, mode_or_default, works_or_default, margin_or_default, nothing_said, options_or_default};
ghost use Rattle.member_options.specs.OptionReading.{option_name_of, cut_name, host_in, flag_in, mode_in, device_in, has_leading_zero, are_digits, is_decimal, is_whole, no_number, priority_found, priority_in, seconds_in, margin_in, option_of, known_option, option_in, is_said, saying, with_option, with_word, said_in, options_in};

use crate::member_option::{MemberOption, MemberOptions, SaidOptions};
use crate::option_name::OptionName;
use crate::{Margin, Priority, SafetyMargin};
use leader_key::Mode;
use pat_base::{Host, Tags};
use script_words::{Fault, both, cut_word, first_at, number};

const OPTION_NAMES: [OptionName; 8] = [
    OptionName::Host,
    OptionName::NoFailover,
    OptionName::NoSync,
    OptionName::NoLoadBalance,
    OptionName::Priority,
    OptionName::Watchdog,
    OptionName::Device,
    OptionName::Margin,
];

fn option_name_text(name: OptionName) -> &'static [u8]
    ensures { result.now ≡ option_name_text name }
{
    match name {
        OptionName::Host => b"host",
        OptionName::NoFailover => b"nofailover",
        OptionName::NoSync => b"nosync",
        OptionName::NoLoadBalance => b"noloadbalance",
        OptionName::Priority => b"priority",
        OptionName::Watchdog => b"watchdog",
        OptionName::Device => b"device",
        OptionName::Margin => b"margin",
    }
}

/// The option of this name.
fn option_name_of(word: &[u8]) -> Option<OptionName>
    ensures { result ≡ option_name_of word.now }
{
    OPTION_NAMES
        .iter()
        .copied()
        .find(|name| word == option_name_text(*name))
}

/// The bytes before the first `=`, and what stands behind it, if there is one.
fn cut_name(word: &[u8]) -> (&[u8], Option<&[u8]>)
    ensures { (result.0.now, option_copied result.1) ≡ cut_name word.now }
{
    match first_at(b'=', word) {
        None => (word, None),
        Some(end) => (&word[..end], Some(&word[end + 1..])),
    }
}

fn host_in(value: &[u8]) -> Result<Host, Fault>
    ensures { result ≡ host_in value.now }
{
    match Host::read(value) {
        None => Err(Fault::BadOption),
        Some(host) => Ok(host),
    }
}

/// An option whose one value is `true`.
fn flag_in(option: MemberOption, value: &[u8]) -> Result<MemberOption, Fault>
    ensures { result ≡ flag_in option value.now }
{
    if value == b"true".as_slice() {
        Ok(option)
    } else {
        Err(Fault::BadOption)
    }
}

fn mode_in(value: &[u8]) -> Result<Mode, Fault>
    ensures { result ≡ mode_in value.now }
{
    if value == b"off".as_slice() {
        Ok(Mode::Off)
    } else if value == b"automatic".as_slice() {
        Ok(Mode::Automatic)
    } else if value == b"required".as_slice() {
        Ok(Mode::Required)
    } else {
        Err(Fault::BadOption)
    }
}

fn device_in(value: &[u8]) -> Result<bool, Fault>
    ensures { result ≡ device_in value.now }
{
    if value == b"ok".as_slice() {
        Ok(true)
    } else if value == b"broken".as_slice() {
        Ok(false)
    } else {
        Err(Fault::BadOption)
    }
}

fn has_leading_zero(word: &[u8]) -> bool
    ensures { result ≡ has_leading_zero word.now }
{
    match word {
        [] => false,
        [first, rest @ ..] => *first == b'0' && !rest.is_empty(),
    }
}

fn are_digits(word: &[u8]) -> bool
    ensures { result ≡ are_digits word.now }
{
    word.iter().all(|b| b.is_ascii_digit())
}

/// Whether these are digits without a leading zero, however many.
fn is_decimal(word: &[u8]) -> bool
    ensures { result ≡ is_decimal word.now }
{
    !word.is_empty() && are_digits(word) && !has_leading_zero(word)
}

/// Whether this is a whole number, however long.
fn is_whole(word: &[u8]) -> bool
    ensures { result ≡ is_whole word.now }
{
    match word {
        [] => false,
        [b'-', digits @ ..] => is_decimal(digits) && digits != b"0".as_slice(),
        _ => is_decimal(word),
    }
}

/// Why a value is no number in its range: whole numbers are out of it.
fn no_number(value: &[u8]) -> Fault
    ensures { result ≡ no_number value.now }
{
    if is_whole(value) {
        Fault::BadNumber
    } else {
        Fault::BadOption
    }
}

fn priority_found(value: &[u8]) -> Option<Priority>
    ensures { result ≡ priority_found value.now }
{
    match value {
        [b'-', digits @ ..] => Priority::below_zero(number(digits)?),
        _ => Priority::from_zero(number(value)?),
    }
}

fn priority_in(value: &[u8]) -> Result<Priority, Fault>
    ensures { result ≡ priority_in value.now }
{
    match priority_found(value) {
        None => Err(no_number(value)),
        Some(priority) => Ok(priority),
    }
}

/// So many seconds before the end of a lease.
fn seconds_in(value: &[u8]) -> Result<Margin, Fault>
    ensures { result ≡ seconds_in value.now }
{
    let Some(n) = number(value) else {
        return Err(no_number(value));
    };
    match Margin::new(n) {
        None => Err(Fault::BadNumber),
        Some(margin) => Ok(margin),
    }
}

/// Half of the lease, or so many seconds.
fn margin_in(value: &[u8]) -> Result<SafetyMargin, Fault>
    ensures { result ≡ margin_in value.now }
{
    if value == b"-1".as_slice() {
        return Ok(SafetyMargin::HalfOfLease);
    }
    Ok(SafetyMargin::Seconds(seconds_in(value)?))
}

/// The option of this name and this value.
fn option_of(name: OptionName, value: &[u8]) -> Result<MemberOption, Fault>
    ensures { result ≡ option_of name value.now }
{
    match name {
        OptionName::Host => Ok(MemberOption::Host(host_in(value)?)),
        OptionName::NoFailover => flag_in(MemberOption::NoFailover, value),
        OptionName::NoSync => flag_in(MemberOption::NoSync, value),
        OptionName::NoLoadBalance => flag_in(MemberOption::NoLoadBalance, value),
        OptionName::Priority => Ok(MemberOption::Priority(priority_in(value)?)),
        OptionName::Watchdog => Ok(MemberOption::Watchdog(mode_in(value)?)),
        OptionName::Device => Ok(MemberOption::Device(device_in(value)?)),
        OptionName::Margin => Ok(MemberOption::Margin(margin_in(value)?)),
    }
}

fn known_option(name: Option<OptionName>, value: Option<&[u8]>) -> Result<MemberOption, Fault>
    ensures { result ≡ known_option name (option_copied value.entry) }
{
    let Some(name) = name else {
        return Err(Fault::BadOption);
    };
    match value {
        None => Err(Fault::BadOption),
        Some(value) => option_of(name, value),
    }
}

/// The option that a word is.
fn option_in(word: &[u8]) -> Result<MemberOption, Fault>
    ensures { result ≡ option_in word.now }
{
    let (name, value) = cut_name(word);
    known_option(option_name_of(name), value)
}

/// What an option is about.
fn name_of_option(option: MemberOption) -> OptionName
    ensures { result ≡ name_of_option option }
{
    match option {
        MemberOption::Host(_) => OptionName::Host,
        MemberOption::NoFailover => OptionName::NoFailover,
        MemberOption::NoSync => OptionName::NoSync,
        MemberOption::NoLoadBalance => OptionName::NoLoadBalance,
        MemberOption::Priority(_) => OptionName::Priority,
        MemberOption::Watchdog(_) => OptionName::Watchdog,
        MemberOption::Device(_) => OptionName::Device,
        MemberOption::Margin(_) => OptionName::Margin,
    }
}

/// Whether something is said under this name.
fn is_said(name: OptionName, said: &SaidOptions) -> bool
    ensures { result ≡ is_said name said.now }
{
    match name {
        OptionName::Host => said.host.is_some(),
        OptionName::NoFailover => said.nofailover,
        OptionName::NoSync => said.nosync,
        OptionName::NoLoadBalance => said.noloadbalance,
        OptionName::Priority => said.priority.is_some(),
        OptionName::Watchdog => said.watchdog.is_some(),
        OptionName::Device => said.device_works.is_some(),
        OptionName::Margin => said.margin.is_some(),
    }
}

/// What is said, with what this option says.
fn saying(option: MemberOption, said: SaidOptions) -> SaidOptions
    ensures { result ≡ saying option said }
{
    match option {
        MemberOption::Host(host) => SaidOptions {
            host: Some(host),
            ..said
        },
        MemberOption::NoFailover => SaidOptions {
            nofailover: true,
            ..said
        },
        MemberOption::NoSync => SaidOptions {
            nosync: true,
            ..said
        },
        MemberOption::NoLoadBalance => SaidOptions {
            noloadbalance: true,
            ..said
        },
        MemberOption::Priority(priority) => SaidOptions {
            priority: Some(priority),
            ..said
        },
        MemberOption::Watchdog(mode) => SaidOptions {
            watchdog: Some(mode),
            ..said
        },
        MemberOption::Device(works) => SaidOptions {
            device_works: Some(works),
            ..said
        },
        MemberOption::Margin(margin) => SaidOptions {
            margin: Some(margin),
            ..said
        },
    }
}

/// What is said with one more option.
fn with_option(said: SaidOptions, option: MemberOption) -> Result<SaidOptions, Fault>
    ensures { result ≡ with_option said option }
{
    if is_said(name_of_option(option), &said) {
        Err(Fault::Duplicate)
    } else {
        Ok(saying(option, said))
    }
}

/// What is said with one more word.
fn with_word(outcome: Result<SaidOptions, Fault>, word: &[u8]) -> Result<SaidOptions, Fault>
    ensures { result ≡ with_word outcome word.now }
{
    let (said, option) = both(outcome, option_in(word))?;
    with_option(said, option)
}

fn nothing_said() -> SaidOptions
    ensures { result ≡ nothing_said }
{
    SaidOptions {
        host: None,
        nofailover: false,
        nosync: false,
        noloadbalance: false,
        priority: None,
        watchdog: None,
        device_works: None,
        margin: None,
    }
}

/// What the words behind a name say.
fn said_in(rest: Option<&[u8]>) -> Result<SaidOptions, Fault>
    ensures { result ≡ said_in (option_copied rest.entry) }
{
    let mut outcome = Ok(nothing_said());
    let mut left = rest;
    while let Some(words) = left {
        let (word, behind) = cut_word(words);
        outcome = with_word(outcome, word);
        left = behind;
    }
    outcome
}

fn host_or_default(said: Option<Host>) -> Host
    ensures { result ≡ host_or_default said }
{
    match said {
        None => Host::local(),
        Some(host) => host,
    }
}

fn priority_or_default(said: Option<Priority>) -> Priority
    ensures { result ≡ priority_or_default said }
{
    match said {
        None => Priority::unsaid(),
        Some(priority) => priority,
    }
}

fn tags_or_default(said: &SaidOptions) -> Tags
    ensures { result ≡ tags_or_default said.now }
{
    let priority = priority_or_default(said.priority);
    Tags {
        nofailover: said.nofailover,
        nosync: said.nosync,
        noloadbalance: said.noloadbalance,
        failover_priority: priority.number,
    }
}

fn mode_or_default(said: Option<Mode>) -> Mode
    ensures { result ≡ mode_or_default said }
{
    match said {
        None => Mode::Automatic,
        Some(mode) => mode,
    }
}

fn works_or_default(said: Option<bool>) -> bool
    ensures { result ≡ works_or_default said }
{
    match said {
        None => true,
        Some(works) => works,
    }
}

fn margin_or_default(said: Option<SafetyMargin>) -> SafetyMargin
    ensures { result ≡ margin_or_default said }
{
    match said {
        None => SafetyMargin::unsaid(),
        Some(margin) => margin,
    }
}

fn options_or_default(said: &SaidOptions) -> MemberOptions
    ensures { result ≡ options_or_default said.now }
{
    MemberOptions {
        host: host_or_default(said.host),
        tags: tags_or_default(said),
        watchdog: mode_or_default(said.watchdog),
        device_works: works_or_default(said.device_works),
        margin: margin_or_default(said.margin),
    }
}

/// What the words behind a member's name declare, or the first of their faults in the order of faults.
pub fn options_in(rest: Option<&[u8]>) -> Result<MemberOptions, Fault>
    ensures { result ≡ options_in (option_copied rest.entry) }
{
    let said = said_in(rest)?;
    Ok(options_or_default(&said))
}

impl MemberOptions {
    ghost use Rattle.std.specs.Prelude.{◌≡◌};
    ghost use Rattle.member_options.specs.Options.{unsaid_options};

    /// What a member's line declares that has no options.
    pub fn unsaid() -> MemberOptions
        ensures { result ≡ unsaid_options }
    {
        options_or_default(&nothing_said())
    }
}

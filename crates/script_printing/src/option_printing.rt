//! The options of a member's line as text.
ghost use Rattle.std.specs.Prelude.{◌≡◌, ◌++◌, OnOk, string_bytes};
ghost use Rattle.member_options.specs.Options.{option_said, flag_said, host_to_say, is_default_priority, priority_of, priority_to_say, mode_text, mode_to_say, device_text, device_to_say, margin_to_say, options_to_say};
ghost use Rattle.member_options.specs.declared.member_option.MemberOption.TheVariants as options;
ghost use Rattle.script_printing.specs.OptionWords.{words_of};

use leader_key::Mode;
use member_options::{MemberOptions, Priority, SafetyMargin};
use pat_base::{Host, Tags};
use std::alloc::AllocError;

/// Appends the options that have to be said, in their order, each behind one blank. It fails only for want of memory.
pub fn write_options(text: &mut String, declared: &MemberOptions) -> Result<(), AllocError>
    ensures { OnOk result (string_bytes text.new ≡ string_bytes text.old ++ words_of (options_to_say declared.now)) }
{
    let tags = declared.tags;
    write_host(text, host_to_say(declared.host))?;
    write_nofailover(text, tags.nofailover)?;
    write_nosync(text, tags.nosync)?;
    write_noloadbalance(text, tags.noloadbalance)?;
    write_priority(text, tags)?;
    write_watchdog(text, mode_to_say(declared.watchdog))?;
    write_device(text, device_to_say(declared.device_works))?;
    write_margin(text, margin_to_say(declared.margin))
}

/// What has to be said of a host: any but the default.
fn host_to_say(host: Host) -> Option<Host>
    ensures { result ≡ host_to_say host }
{
    if host.as_bytes() == Host::local().as_bytes() {
        None
    } else {
        Some(host)
    }
}

fn write_host(text: &mut String, said: Option<Host>) -> Result<(), AllocError>
    ensures { OnOk result (string_bytes text.new ≡ string_bytes text.old ++ words_of (option_said options.Host said)) }
{
    match said {
        None => Ok(()),
        Some(host) => write!(text, " host={host}"),
    }
}

fn write_nofailover(text: &mut String, set: bool) -> Result<(), AllocError>
    ensures { OnOk result (string_bytes text.new ≡ string_bytes text.old ++ words_of (flag_said options.NoFailover set)) }
{
    if set {
        text.push_str(" nofailover=true")
    } else {
        Ok(())
    }
}

fn write_nosync(text: &mut String, set: bool) -> Result<(), AllocError>
    ensures { OnOk result (string_bytes text.new ≡ string_bytes text.old ++ words_of (flag_said options.NoSync set)) }
{
    if set {
        text.push_str(" nosync=true")
    } else {
        Ok(())
    }
}

fn write_noloadbalance(text: &mut String, set: bool) -> Result<(), AllocError>
    ensures { OnOk result (string_bytes text.new ≡ string_bytes text.old ++ words_of (flag_said options.NoLoadBalance set)) }
{
    if set {
        text.push_str(" noloadbalance=true")
    } else {
        Ok(())
    }
}

fn is_default_priority(number: i64) -> bool
    ensures { result ≡ is_default_priority number }
{
    number == Priority::unsaid().number
}

/// Appends the priority of tags, where it isn't the default.
fn write_priority(text: &mut String, tags: Tags) -> Result<(), AllocError>
    ensures { OnOk result (string_bytes text.new ≡ string_bytes text.old ++ words_of (option_said options.Priority (priority_to_say (priority_of tags)))) }
{
    let priority = tags.failover_priority;
    if is_default_priority(priority) {
        return Ok(());
    }
    write!(text, " priority={priority}")
}

fn mode_text(mode: Mode) -> &'static str
    ensures { result.now ≡ mode_text mode }
{
    match mode {
        Mode::Off => "off",
        Mode::Automatic => "automatic",
        Mode::Required => "required",
    }
}

/// What has to be said of a mode: any but the default.
fn mode_to_say(mode: Mode) -> Option<Mode>
    ensures { result ≡ mode_to_say mode }
{
    match mode {
        Mode::Automatic => None,
        said => Some(said),
    }
}

fn write_watchdog(text: &mut String, said: Option<Mode>) -> Result<(), AllocError>
    ensures { OnOk result (string_bytes text.new ≡ string_bytes text.old ++ words_of (option_said options.Watchdog said)) }
{
    let Some(mode) = said else {
        return Ok(());
    };
    text.push_str(" watchdog=")?;
    text.push_str(mode_text(mode))
}

fn device_text(works: bool) -> &'static str
    ensures { result.now ≡ device_text works }
{
    if works { "ok" } else { "broken" }
}

/// What has to be said of a device: that it doesn't work.
fn device_to_say(works: bool) -> Option<bool>
    ensures { result ≡ device_to_say works }
{
    if works { None } else { Some(false) }
}

fn write_device(text: &mut String, said: Option<bool>) -> Result<(), AllocError>
    ensures { OnOk result (string_bytes text.new ≡ string_bytes text.old ++ words_of (option_said options.Device said)) }
{
    let Some(works) = said else {
        return Ok(());
    };
    text.push_str(" device=")?;
    text.push_str(device_text(works))
}

/// What has to be said of a margin: any but the default.
fn margin_to_say(margin: SafetyMargin) -> Option<SafetyMargin>
    ensures { result ≡ margin_to_say margin }
{
    if margin.is_unsaid() {
        None
    } else {
        Some(margin)
    }
}

fn write_margin(text: &mut String, said: Option<SafetyMargin>) -> Result<(), AllocError>
    ensures { OnOk result (string_bytes text.new ≡ string_bytes text.old ++ words_of (option_said options.Margin said)) }
{
    match said {
        None => Ok(()),
        Some(SafetyMargin::HalfOfLease) => text.push_str(" margin=-1"),
        Some(SafetyMargin::Seconds(margin)) => {
            let seconds = margin.seconds;
            write!(text, " margin={seconds}")
        }
    }
}

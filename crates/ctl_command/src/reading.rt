//! What the words of a line ask for.
ghost use Rattle.std.specs.Prelude.{◌≡◌, option_map};
ghost use Rattle.std.specs.Option.{option_copied};
ghost use Rattle.ctl_command.specs.Seen.{seen_said, seen_command, seen_outcome, seen_result};
ghost use Rattle.ctl_command.specs.Settings.{setting_text};
ghost use Rattle.ctl_command.specs.Words.{words_behind};
ghost use Rattle.ctl_command.specs.Reading.{is_option, is_said, with_leader, with_candidate, with_setting, with_value, awaiting, with_value_option, with_force, with_known_option, with_option, with_cluster, with_member, awaits_member, behind_cluster, with_name, among_names, among_options, with_word, with_next, nothing_said, said_in, edit_config, switchover, failover, restart, reinit, built, lacks_cluster, at_end, finished, command_by};

use crate::command_name::CommandName;
use crate::cutting::cut_once;
use crate::option_name::OptionName;
use crate::said::{Place, Said};
use crate::setting_parts::setting_in;
use crate::tables::{command_named, option_named, takes_member};
use crate::{Command, CtlFault, Needed, Setting, ValueOption};
use pat_base::{Host, MemberId, Name, member_named};

/// The names that a line may say.
#[derive(Clone, Copy)]
struct Known<'a> {
    cluster: Name,
    members: &'a [(Name, Host)],
}

/// Whether a word is an option, known or not.
fn is_option(word: &str) -> bool
    ensures { result ≡ is_option word.now }
{
    word.starts_with("--")
}

/// Whether something is said by this option.
fn is_said(option: ValueOption, said: &Said) -> bool
    ensures { result ≡ is_said option (seen_said said.now) }
{
    match option {
        ValueOption::Leader => said.leader.is_some(),
        ValueOption::Candidate => said.candidate.is_some(),
        ValueOption::Set => said.setting.is_some(),
    }
}

fn with_leader<'a>(
    said: Said<'a>,
    value: &'a str,
    member: Option<MemberId>,
) -> Result<Said<'a>, CtlFault<'a>>
    ensures { seen_outcome result ≡ with_leader (seen_said said.entry) value.now member }
{
    let Some(member) = member else {
        return Err(CtlFault::Unknown(value));
    };
    Ok(Said {
        leader: Some(member),
        place: Place::Options,
        ..said
    })
}

fn with_candidate<'a>(
    said: Said<'a>,
    value: &'a str,
    member: Option<MemberId>,
) -> Result<Said<'a>, CtlFault<'a>>
    ensures { seen_outcome result ≡ with_candidate (seen_said said.entry) value.now member }
{
    let Some(member) = member else {
        return Err(CtlFault::Unknown(value));
    };
    Ok(Said {
        candidate: Some(member),
        place: Place::Options,
        ..said
    })
}

fn with_setting<'a>(
    said: Said<'a>,
    value: &'a str,
    setting: Option<Setting<'a>>,
) -> Result<Said<'a>, CtlFault<'a>>
    ensures { seen_outcome result ≡ with_setting (seen_said said.entry) value.now (option_map setting_text setting.entry) }
{
    let Some(setting) = setting else {
        return Err(CtlFault::Unknown(value));
    };
    Ok(Said {
        setting: Some(setting),
        place: Place::Options,
        ..said
    })
}

/// What is said, with the value of an option.
fn with_value<'a>(
    known: &Known,
    option: ValueOption,
    said: Said<'a>,
    value: &'a str,
) -> Result<Said<'a>, CtlFault<'a>>
    ensures { seen_outcome result ≡ with_value known.now.members.now option (seen_said said.entry) value.now }
{
    match option {
        ValueOption::Leader => with_leader(said, value, member_named(known.members, value)),
        ValueOption::Candidate => with_candidate(said, value, member_named(known.members, value)),
        ValueOption::Set => with_setting(said, value, setting_in(value)),
    }
}

/// What is said, where the next word is the value of this option.
fn awaiting<'a>(option: ValueOption, said: Said<'a>) -> Said<'a>
    ensures { seen_said result ≡ awaiting option (seen_said said.entry) }
{
    Said {
        place: Place::Value(option),
        ..said
    }
}

/// What is said with an option that takes a value, and with its value where that stands in the same word.
fn with_value_option<'a>(
    known: &Known,
    option: ValueOption,
    said: Said<'a>,
    word: &'a str,
    value: Option<&'a str>,
) -> Result<Said<'a>, CtlFault<'a>>
    ensures { seen_outcome result ≡ with_value_option known.now.members.now option (seen_said said.entry) word.now (option_copied value.entry) }
{
    if is_said(option, &said) {
        return Err(CtlFault::Extra(word));
    }
    match value {
        None => Ok(awaiting(option, said)),
        Some(value) => with_value(known, option, said, value),
    }
}

/// What is said with `--force`, which has no value.
fn with_force<'a>(
    said: Said<'a>,
    word: &'a str,
    value: Option<&'a str>,
) -> Result<Said<'a>, CtlFault<'a>>
    ensures { seen_outcome result ≡ with_force (seen_said said.entry) word.now (option_copied value.entry) }
{
    if value.is_some() {
        return Err(CtlFault::Unknown(word));
    }
    if said.force {
        return Err(CtlFault::Extra(word));
    }
    Ok(Said {
        force: true,
        place: Place::Options,
        ..said
    })
}

fn with_known_option<'a>(
    known: &Known,
    option: Option<OptionName>,
    said: Said<'a>,
    word: &'a str,
    value: Option<&'a str>,
) -> Result<Said<'a>, CtlFault<'a>>
    ensures { seen_outcome result ≡ with_known_option known.now.members.now option (seen_said said.entry) word.now (option_copied value.entry) }
{
    match option {
        None => Err(CtlFault::Unknown(word)),
        Some(OptionName::Force) => with_force(said, word, value),
        Some(OptionName::Value(option)) => with_value_option(known, option, said, word, value),
    }
}

/// What is said with a word that is an option, known or not.
fn with_option<'a>(
    command: CommandName,
    known: &Known,
    said: Said<'a>,
    word: &'a str,
) -> Result<Said<'a>, CtlFault<'a>>
    ensures { seen_outcome result ≡ with_option command known.now.members.now (seen_said said.entry) word.now }
{
    let (name, value) = cut_once('=', word);
    with_known_option(known, option_named(command, name), said, word, value)
}

/// What is said with a word that stands where the cluster's name may stand.
fn with_cluster<'a>(cluster: &Name, said: Said<'a>, word: &'a str) -> Result<Said<'a>, CtlFault<'a>>
    ensures { seen_outcome result ≡ with_cluster cluster.now (seen_said said.entry) word.now }
{
    if word == cluster.as_str() {
        Ok(Said {
            cluster: true,
            ..said
        })
    } else {
        Err(CtlFault::Unknown(word))
    }
}

fn with_member<'a>(
    said: Said<'a>,
    word: &'a str,
    member: Option<MemberId>,
) -> Result<Said<'a>, CtlFault<'a>>
    ensures { seen_outcome result ≡ with_member (seen_said said.entry) word.now member }
{
    let Some(member) = member else {
        return Err(CtlFault::Unknown(word));
    };
    Ok(Said {
        member: Some(member),
        ..said
    })
}

/// Whether the next name is that of a member.
fn awaits_member(command: CommandName, said: &Said) -> bool
    ensures { result ≡ awaits_member command (seen_said said.now) }
{
    takes_member(command) && said.member.is_none()
}

/// What is said with a word that stands behind the cluster's name, before the first option.
fn behind_cluster<'a>(
    command: CommandName,
    known: &Known,
    said: Said<'a>,
    word: &'a str,
) -> Result<Said<'a>, CtlFault<'a>>
    ensures { seen_outcome result ≡ behind_cluster command known.now.members.now (seen_said said.entry) word.now }
{
    if awaits_member(command, &said) {
        with_member(said, word, member_named(known.members, word))
    } else {
        Err(CtlFault::Extra(word))
    }
}

/// What is said with a word that is no option, before the first option.
fn with_name<'a>(
    command: CommandName,
    known: &Known,
    said: Said<'a>,
    word: &'a str,
) -> Result<Said<'a>, CtlFault<'a>>
    ensures { seen_outcome result ≡ with_name command known.now.cluster known.now.members.now (seen_said said.entry) word.now }
{
    if said.cluster {
        behind_cluster(command, known, said, word)
    } else {
        with_cluster(&known.cluster, said, word)
    }
}

fn among_names<'a>(
    command: CommandName,
    known: &Known,
    said: Said<'a>,
    word: &'a str,
) -> Result<Said<'a>, CtlFault<'a>>
    ensures { seen_outcome result ≡ among_names command known.now.cluster known.now.members.now (seen_said said.entry) word.now }
{
    if is_option(word) {
        with_option(command, known, said, word)
    } else {
        with_name(command, known, said, word)
    }
}

fn among_options<'a>(
    command: CommandName,
    known: &Known,
    said: Said<'a>,
    word: &'a str,
) -> Result<Said<'a>, CtlFault<'a>>
    ensures { seen_outcome result ≡ among_options command known.now.members.now (seen_said said.entry) word.now }
{
    if is_option(word) {
        with_option(command, known, said, word)
    } else {
        Err(CtlFault::Extra(word))
    }
}

/// What is said with one more word.
fn with_word<'a>(
    command: CommandName,
    known: &Known,
    said: Said<'a>,
    word: &'a str,
) -> Result<Said<'a>, CtlFault<'a>>
    ensures { seen_outcome result ≡ with_word command known.now.cluster known.now.members.now (seen_said said.entry) word.now }
{
    match said.place {
        Place::Names => among_names(command, known, said, word),
        Place::Options => among_options(command, known, said, word),
        Place::Value(option) => with_value(known, option, said, word),
    }
}

/// The same, where no word before is at fault.
fn with_next<'a>(
    command: CommandName,
    known: &Known,
    outcome: Result<Said<'a>, CtlFault<'a>>,
    word: &'a str,
) -> Result<Said<'a>, CtlFault<'a>>
    ensures { seen_outcome result ≡ with_next command known.now.cluster known.now.members.now (seen_outcome outcome.entry) word.now }
{
    match outcome {
        Err(fault) => Err(fault),
        Ok(said) => with_word(command, known, said, word),
    }
}

fn nothing_said<'a>() -> Said<'a>
    ensures { seen_said result ≡ nothing_said }
{
    Said {
        cluster: false,
        member: None,
        leader: None,
        candidate: None,
        setting: None,
        force: false,
        place: Place::Names,
    }
}

/// What the words behind a command say.
fn said_in<'a>(
    command: CommandName,
    known: &Known,
    words: Option<&'a str>,
) -> Result<Said<'a>, CtlFault<'a>>
    ensures { seen_outcome result ≡ said_in command known.now.cluster known.now.members.now (words_behind (option_copied words.entry)) }
{
    let mut outcome = Ok(nothing_said());
    let mut left = words;
    while let Some(words) = left {
        let (word, behind) = cut_once(' ', words);
        outcome = with_next(command, known, outcome, word);
        left = behind;
    }
    outcome
}

fn edit_config<'a>(setting: Option<Setting<'a>>) -> Result<Command<'a>, CtlFault<'a>>
    ensures { seen_result result ≡ edit_config (option_map setting_text setting.entry) }
{
    let Some(setting) = setting else {
        return Err(CtlFault::Missing(Needed::Value(ValueOption::Set)));
    };
    Ok(Command::EditConfig(setting))
}

fn switchover<'a>(
    leader: Option<MemberId>,
    candidate: Option<MemberId>,
) -> Result<Command<'a>, CtlFault<'a>>
    ensures { seen_result result ≡ switchover leader candidate }
{
    let Some(leader) = leader else {
        return Err(CtlFault::Missing(Needed::Value(ValueOption::Leader)));
    };
    Ok(Command::Switchover { leader, candidate })
}

fn failover<'a>(candidate: Option<MemberId>) -> Result<Command<'a>, CtlFault<'a>>
    ensures { seen_result result ≡ failover candidate }
{
    let Some(candidate) = candidate else {
        return Err(CtlFault::Missing(Needed::Value(ValueOption::Candidate)));
    };
    Ok(Command::Failover { candidate })
}

fn restart<'a>(member: Option<MemberId>) -> Result<Command<'a>, CtlFault<'a>>
    ensures { seen_result result ≡ restart member }
{
    let Some(member) = member else {
        return Err(CtlFault::Missing(Needed::Member));
    };
    Ok(Command::Restart(member))
}

fn reinit<'a>(member: Option<MemberId>) -> Result<Command<'a>, CtlFault<'a>>
    ensures { seen_result result ≡ reinit member }
{
    let Some(member) = member else {
        return Err(CtlFault::Missing(Needed::Member));
    };
    Ok(Command::Reinit(member))
}

/// The command of what is said, where nothing that is required lacks but perhaps the cluster's name.
fn built<'a>(command: CommandName, said: &Said<'a>) -> Result<Command<'a>, CtlFault<'a>>
    ensures { seen_result result ≡ built command (seen_said said.now) }
{
    match command {
        CommandName::List => Ok(Command::List),
        CommandName::History => Ok(Command::History),
        CommandName::ShowConfig => Ok(Command::ShowConfig),
        CommandName::Pause => Ok(Command::Pause),
        CommandName::Resume => Ok(Command::Resume),
        CommandName::EditConfig => edit_config(said.setting),
        CommandName::Switchover => switchover(said.leader, said.candidate),
        CommandName::Failover => failover(said.candidate),
        CommandName::Restart => restart(said.member),
        CommandName::Reinit => reinit(said.member),
    }
}

/// Whether the cluster's name is required, and lacks.
fn lacks_cluster(command: CommandName, said: &Said) -> bool
    ensures { result ≡ lacks_cluster command (seen_said said.now) }
{
    takes_member(command) && !said.cluster
}

/// A command, if no option stands at the end without its value.
fn at_end<'a>(place: Place, command: Command<'a>) -> Result<Command<'a>, CtlFault<'a>>
    ensures { seen_result result ≡ at_end place (seen_command command.entry) }
{
    match place {
        Place::Value(option) => Err(CtlFault::Missing(Needed::Value(option))),
        _ => Ok(command),
    }
}

/// The command of what is said, or the first thing that it lacks.
fn finished<'a>(command: CommandName, said: &Said<'a>) -> Result<Command<'a>, CtlFault<'a>>
    ensures { seen_result result ≡ finished command (seen_said said.now) }
{
    if lacks_cluster(command, said) {
        return Err(CtlFault::Missing(Needed::Cluster));
    }
    match built(command, said) {
        Err(fault) => Err(fault),
        Ok(built) => at_end(said.place, built),
    }
}

fn command_by<'a>(
    known: &Known,
    command: Option<CommandName>,
    word: &'a str,
    words: Option<&'a str>,
) -> Result<Command<'a>, CtlFault<'a>>
    ensures { seen_result result ≡ command_by known.now.cluster known.now.members.now command word.now (words_behind (option_copied words.entry)) }
{
    let Some(command) = command else {
        return Err(CtlFault::Unknown(word));
    };
    match said_in(command, known, words) {
        Err(fault) => Err(fault),
        Ok(said) => finished(command, &said),
    }
}

impl<'a> Command<'a> {
    ghost use Rattle.std.specs.Prelude.{◌≡◌};
    ghost use Rattle.ctl_command.specs.Reading.{command_of};
    ghost use Rattle.ctl_command.specs.Seen.{seen_result};
    ghost use Rattle.ctl_command.specs.Words.{line_words};

    /// What these words ask for, with one space between two of them, where this is the cluster's name and these are its
    /// members. `Err` says which word is the first at fault, or else what lacks.
    pub fn read(
        cluster: &Name,
        members: &[(Name, Host)],
        words: &'a str,
    ) -> Result<Command<'a>, CtlFault<'a>>
        ensures { seen_result result ≡ command_of cluster.now members.now (line_words words.now) }
    {
        if words.is_empty() {
            return Err(CtlFault::NoCommand);
        }
        let known = Known {
            cluster: *cluster,
            members,
        };
        let (word, behind) = cut_once(' ', words);
        command_by(&known, command_named(word), word, behind)
    }
}

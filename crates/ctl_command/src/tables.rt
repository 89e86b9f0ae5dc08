//! The table of commands and that of options.
ghost use Rattle.std.specs.Prelude.{◌≡◌};
ghost use Rattle.ctl_command.specs.Tables.{command_text, command_named, option_text, value_options, takes_member, value_option_named, option_named};

use crate::ValueOption;
use crate::command_name::CommandName;
use crate::option_name::OptionName;

const COMMANDS: [CommandName; 10] = [
    CommandName::List,
    CommandName::History,
    CommandName::ShowConfig,
    CommandName::Pause,
    CommandName::Resume,
    CommandName::EditConfig,
    CommandName::Switchover,
    CommandName::Failover,
    CommandName::Restart,
    CommandName::Reinit,
];

/// The option that each command takes.
const FORCE: &str = "--force";

fn command_text(command: CommandName) -> &'static str
    ensures { result.now ≡ command_text command }
{
    match command {
        CommandName::List => "list",
        CommandName::History => "history",
        CommandName::ShowConfig => "show-config",
        CommandName::Pause => "pause",
        CommandName::Resume => "resume",
        CommandName::EditConfig => "edit-config",
        CommandName::Switchover => "switchover",
        CommandName::Failover => "failover",
        CommandName::Restart => "restart",
        CommandName::Reinit => "reinit",
    }
}

/// The command of this word.
pub fn command_named(word: &str) -> Option<CommandName>
    ensures { result ≡ command_named word.now }
{
    COMMANDS
        .iter()
        .copied()
        .find(|command| word == command_text(*command))
}

/// The word of an option that takes a value.
pub fn option_text(option: ValueOption) -> &'static str
    ensures { result.now ≡ option_text option }
{
    match option {
        ValueOption::Leader => "--leader",
        ValueOption::Candidate => "--candidate",
        ValueOption::Set => "--set",
    }
}

/// The options with a value that a command takes.
fn value_options(command: CommandName) -> &'static [ValueOption]
    ensures { result.now ≡ value_options command }
{
    match command {
        CommandName::EditConfig => &[ValueOption::Set],
        CommandName::Switchover => &[ValueOption::Leader, ValueOption::Candidate],
        CommandName::Failover => &[ValueOption::Candidate],
        _ => &[],
    }
}

/// Whether a command takes a member's name behind that of the cluster.
pub fn takes_member(command: CommandName) -> bool
    ensures { result ≡ takes_member command }
{
    match command {
        CommandName::Restart | CommandName::Reinit => true,
        _ => false,
    }
}

/// The option with a value that a command takes under this name.
fn value_option_named(command: CommandName, name: &str) -> Option<ValueOption>
    ensures { result ≡ value_option_named command name.now }
{
    value_options(command)
        .iter()
        .copied()
        .find(|option| name == option_text(*option))
}

/// The option that a command takes under this name.
pub fn option_named(command: CommandName, name: &str) -> Option<OptionName>
    ensures { result ≡ option_named command name.now }
{
    if name == FORCE {
        return Some(OptionName::Force);
    }
    match value_option_named(command, name) {
        None => None,
        Some(option) => Some(OptionName::Value(option)),
    }
}

//! The head of a script as text.
ghost use Rattle.std.specs.Prelude.{◌≡◌, ◌++◌, ◌∷◌, [], OnOk, map, string_bytes};
ghost use Rattle.std.specs.Option.{option_copied};
ghost use Rattle.script_words.specs.Lines.{ended};
ghost use Rattle.script_printing.specs.Places.{line_at};
ghost use Rattle.script_model.specs.Script.{cluster_text, shortest_line, config_to_say, config_lines, base_to_say, base_lines, head_lines};

use crate::command_printing::write_number_line;
use crate::option_printing::write_options;
use crate::word_printing::begin_line;
use member_options::MemberOptions;
use pat_base::Name;
use script_model::{DEFAULT_BASE, Head, Keyword};
use std::alloc::AllocError;
use store_keys::ConfigValue;

/// The text of the configuration where nothing is set.
const DEFAULT_CONFIG: &str = "{}";

/// Appends the lines of a head, each with its line feed. It fails only for want of memory.
pub fn write_head(text: &mut String, head: &Head) -> Result<(), AllocError>
    ensures { OnOk result (string_bytes text.new ≡ string_bytes text.old ++ ended (head_lines head.now)) }
{
    write_cluster(text, head.cluster())?;
    write_config(text, config_to_say(head.config()))?;
    write_base(text, base_to_say(head.base()))?;
    write_members(text, head)
}

fn write_cluster(text: &mut String, cluster: Name) -> Result<(), AllocError>
    ensures { OnOk result (string_bytes text.new ≡ string_bytes text.old ++ ended (cluster_text cluster ∷ [])) }
{
    begin_line(text, Keyword::Cluster)?;
    text.push_str(cluster.as_str())?;
    text.push_str("\n")
}

/// The text of a configuration that has to be said: any but the default's.
fn config_to_say(config: &ConfigValue) -> Option<&str>
    ensures { option_copied result ≡ config_to_say config.now }
{
    let text = config.as_str();
    if text == DEFAULT_CONFIG {
        None
    } else {
        Some(text)
    }
}

fn write_config(text: &mut String, said: Option<&str>) -> Result<(), AllocError>
    ensures { OnOk result (string_bytes text.new ≡ string_bytes text.old ++ ended (config_lines (option_copied said.entry))) }
{
    let Some(config) = said else {
        return Ok(());
    };
    begin_line(text, Keyword::Config)?;
    text.push_str(config)?;
    text.push_str("\n")
}

/// A base that has to be said: any but the default.
fn base_to_say(base: u64) -> Option<u64>
    ensures { result ≡ base_to_say base }
{
    if base == DEFAULT_BASE {
        None
    } else {
        Some(base)
    }
}

fn write_base(text: &mut String, said: Option<u64>) -> Result<(), AllocError>
    ensures { OnOk result (string_bytes text.new ≡ string_bytes text.old ++ ended (base_lines said)) }
{
    let Some(base) = said else {
        return Ok(());
    };
    write_number_line(text, Keyword::Base, base)?;
    text.push_str("\n")
}

fn write_members(text: &mut String, head: &Head) -> Result<(), AllocError>
    ensures { OnOk result (string_bytes text.new ≡ string_bytes text.old ++ ended (map shortest_line head.now.members)) }
{
    for place in 0..head.member_count() {
        write_member_at(text, head, place)?;
    }
    Ok(())
}

/// Appends the line of the member at a place, if there is one.
fn write_member_at(text: &mut String, head: &Head, place: usize) -> Result<(), AllocError>
    ensures { OnOk result (string_bytes text.new ≡ string_bytes text.old ++ ended (line_at shortest_line head.now.members place)) }
{
    let (Some(name), Some(options)) = (head.member(place), head.options(place)) else {
        return Ok(());
    };
    write_declaration(text, name, &options)
}

/// Appends the line of a member.
fn write_declaration(
    text: &mut String,
    name: Name,
    options: &MemberOptions,
) -> Result<(), AllocError>
    ensures { OnOk result (string_bytes text.new ≡ string_bytes text.old ++ ended (shortest_line (record { name = name; options = options.now }) ∷ [])) }
{
    begin_line(text, Keyword::Member)?;
    text.push_str(name.as_str())?;
    write_options(text, options)?;
    text.push_str("\n")
}

//! Words of lines as text.
ghost use Rattle.std.specs.Prelude.{◌≡◌, ◌++◌, [], OnOk, string_bytes};
ghost use Rattle.script_model.specs.Keywords.{word_of, spelled};
ghost use Rattle.script_model.specs.Script.{names_of, text_of_name, member_text, end_word, switch_text, slowed_call_text};

use pat_base::{MemberId, Name};
use script_model::{End, Head, Keyword, SlowedCall};
use std::alloc::AllocError;

fn keyword_text(keyword: Keyword) -> &'static str
    ensures { result.now ≡ word_of keyword }
{
    match keyword {
        Keyword::Cluster => "cluster",
        Keyword::Config => "config",
        Keyword::Base => "base",
        Keyword::Member => "member",
        Keyword::Tick => "tick",
        Keyword::Run => "run",
        Keyword::Turn => "turn",
        Keyword::Deliver => "deliver",
        Keyword::Lose => "lose",
        Keyword::Hold => "hold",
        Keyword::Resume => "resume",
        Keyword::Kill => "kill",
        Keyword::Restart => "restart",
        Keyword::Crash => "crash",
        Keyword::Promote => "promote",
        Keyword::Commit => "commit",
        Keyword::Stream => "stream",
        Keyword::Freeze => "freeze",
        Keyword::Thaw => "thaw",
        Keyword::Cut => "cut",
        Keyword::Join => "join",
        Keyword::Slow => "slow",
        Keyword::Rest => "rest",
        Keyword::Ctl => "ctl",
        Keyword::Trace => "trace",
    }
}

/// Begins a line by its first word and the blank behind it. It fails only for want of memory.
pub fn begin_line(text: &mut String, keyword: Keyword) -> Result<(), AllocError>
    ensures { OnOk result (string_bytes text.new ≡ string_bytes text.old ++ spelled keyword []) }
{
    text.push_str(keyword_text(keyword))?;
    text.push_str(" ")
}

fn write_name(text: &mut String, name: Option<Name>) -> Result<(), AllocError>
    ensures { OnOk result (string_bytes text.new ≡ string_bytes text.old ++ text_of_name name) }
{
    match name {
        None => Ok(()),
        Some(name) => text.push_str(name.as_str()),
    }
}

/// Appends the name of a member. It fails only for want of memory.
pub fn write_member(text: &mut String, head: &Head, member: MemberId) -> Result<(), AllocError>
    ensures { OnOk result (string_bytes text.new ≡ string_bytes text.old ++ member_text (names_of head.now) member) }
{
    write_name(text, head.member(usize::from(member.number)))
}

/// Appends an end of a link: a member's name, or the word of the key store. It fails only for want of memory.
pub fn write_end(text: &mut String, head: &Head, end: End) -> Result<(), AllocError>
    ensures { OnOk result (string_bytes text.new ≡ string_bytes text.old ++ end_word (names_of head.now) end) }
{
    match end {
        End::Store => text.push_str("store"),
        End::Member(member) => write_member(text, head, member),
    }
}

/// The word of a switch.
pub fn switch_text(on: bool) -> &'static str
    ensures { result.now ≡ switch_text on }
{
    if on { "on" } else { "off" }
}

/// The word of what a delay slows.
pub fn slowed_call_text(slowed: SlowedCall) -> &'static str
    ensures { result.now ≡ slowed_call_text slowed }
{
    match slowed {
        SlowedCall::Stop => "stop",
        SlowedCall::Start => "start",
    }
}

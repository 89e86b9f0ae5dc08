//! The lines of a body as text.
ghost use Rattle.std.specs.Prelude.{◌≡◌, ◌++◌, OnOk, string_bytes};
ghost use Rattle.std.specs.Fmt.{decimal};
ghost use Rattle.std.specs.Str.{IsUtf8};
ghost use Rattle.script_model.specs.Keywords.{spelled};
ghost use Rattle.script_model.specs.declared.keyword.Keyword.TheVariants as words;
ghost use Rattle.script_model.specs.Script.{names_of, member_text, end_word, switch_text, slowed_call_text, two_texts, body_text, request_text, rest_text, ctl_text, command_text, line_text, IsRequest, IsCtlLine, IsCommand, IsLine};

use crate::word_printing::{begin_line, slowed_call_text, switch_text, write_end, write_member};
use pat_base::MemberId;
use script_model::{
    Command, CommitSize, Delay, End, Head, Keyword, Line, LineBytes, RequestWords, SlowedCall,
};
use std::alloc::AllocError;

/// Appends a line of a body without its line feed. It fails only for want of memory.
pub fn write_line(text: &mut String, head: &Head, line: &Line) -> Result<(), AllocError>
    requires { IsLine (names_of head.now) line.now }
    ensures { OnOk result (string_bytes text.new ≡ string_bytes text.old ++ line_text (names_of head.now) line.now) }
{
    match line {
        Line::Run(count) => write_number_line(text, Keyword::Run, *count),
        Line::Tick(count) => write_number_line(text, Keyword::Tick, *count),
        Line::Command(command) => write_command(text, head, command),
    }
}

fn write_command(text: &mut String, head: &Head, command: &Command) -> Result<(), AllocError>
    requires { IsCommand (names_of head.now) command.now }
    ensures { OnOk result (string_bytes text.new ≡ string_bytes text.old ++ command_text (names_of head.now) command.now) }
{
    match command {
        Command::Turn(member) => write_member_line(text, head, Keyword::Turn, *member),
        Command::Deliver(number) => write_number_line(text, Keyword::Deliver, *number),
        Command::Lose(number) => write_number_line(text, Keyword::Lose, *number),
        Command::Suspend(member) => write_member_line(text, head, Keyword::Hold, *member),
        Command::Resume(member) => write_member_line(text, head, Keyword::Resume, *member),
        Command::Kill(member) => write_member_line(text, head, Keyword::Kill, *member),
        Command::StartAgent(member) => write_member_line(text, head, Keyword::Restart, *member),
        Command::Promote(member) => write_member_line(text, head, Keyword::Promote, *member),
        Command::Crash(member) => write_member_line(text, head, Keyword::Crash, *member),
        Command::Commit(member, size) => write_commit(text, head, *member, *size),
        Command::Stream(member, most) => write_count_line(
            text,
            head,
            Keyword::Stream,
            *member,
            *most,
        ),
        Command::Freeze(member) => write_member_line(text, head, Keyword::Freeze, *member),
        Command::Thaw(member) => write_member_line(text, head, Keyword::Thaw, *member),
        Command::Slow(member, slowed, delay) => write_slow(text, head, *member, *slowed, *delay),
        Command::Cut(first, second) => write_link_line(text, head, Keyword::Cut, *first, *second),
        Command::Join(first, second) => write_link_line(text, head, Keyword::Join, *first, *second),
        Command::Rest(member, request) => write_rest(text, head, *member, request.get()),
        Command::Ctl(said) => write_ctl(text, said),
        Command::Trace(on) => write_trace(text, *on),
    }
}

/// Appends a line whose one word is a number. It fails only for want of memory.
pub fn write_number_line(text: &mut String, keyword: Keyword, number: u64) -> Result<(), AllocError>
    ensures { OnOk result (string_bytes text.new ≡ string_bytes text.old ++ spelled keyword (decimal number)) }
{
    begin_line(text, keyword)?;
    write!(text, "{number}")
}

/// Appends a line whose one word is a member.
fn write_member_line(
    text: &mut String,
    head: &Head,
    keyword: Keyword,
    member: MemberId,
) -> Result<(), AllocError>
    ensures { OnOk result (string_bytes text.new ≡ string_bytes text.old ++ spelled keyword (member_text (names_of head.now) member)) }
{
    begin_line(text, keyword)?;
    write_member(text, head, member)
}

/// Appends a line of a member and a number.
fn write_count_line(
    text: &mut String,
    head: &Head,
    keyword: Keyword,
    member: MemberId,
    number: u64,
) -> Result<(), AllocError>
    ensures { OnOk result (string_bytes text.new ≡ string_bytes text.old ++ spelled keyword (two_texts (member_text (names_of head.now) member) (decimal number))) }
{
    write_member_line(text, head, keyword, member)?;
    write!(text, " {number}")
}

fn write_commit(
    text: &mut String,
    head: &Head,
    member: MemberId,
    size: CommitSize,
) -> Result<(), AllocError>
    ensures { OnOk result (string_bytes text.new ≡ string_bytes text.old ++ spelled words.Commit (two_texts (member_text (names_of head.now) member) (decimal size.bytes))) }
{
    write_count_line(text, head, Keyword::Commit, member, size.bytes)
}

fn write_slow(
    text: &mut String,
    head: &Head,
    member: MemberId,
    slowed: SlowedCall,
    delay: Delay,
) -> Result<(), AllocError>
    ensures { OnOk result (string_bytes text.new ≡ string_bytes text.old ++ spelled words.Slow (two_texts (member_text (names_of head.now) member) (two_texts (slowed_call_text slowed) (decimal delay.ticks)))) }
{
    write_member_line(text, head, Keyword::Slow, member)?;
    let (call, ticks) = (slowed_call_text(slowed), delay.ticks);
    write!(text, " {call} {ticks}")
}

/// Appends a line of the two ends of a link.
fn write_link_line(
    text: &mut String,
    head: &Head,
    keyword: Keyword,
    first: End,
    second: End,
) -> Result<(), AllocError>
    ensures { OnOk result (string_bytes text.new ≡ string_bytes text.old ++ spelled keyword (two_texts (end_word (names_of head.now) first) (end_word (names_of head.now) second))) }
{
    begin_line(text, keyword)?;
    write_end(text, head, first)?;
    text.push_str(" ")?;
    write_end(text, head, second)
}

fn write_rest(
    text: &mut String,
    head: &Head,
    member: MemberId,
    request: &RequestWords,
) -> Result<(), AllocError>
    requires { IsRequest (names_of head.now) member request.now }
    ensures { OnOk result (string_bytes text.new ≡ string_bytes text.old ++ rest_text (names_of head.now) member request.now) }
{
    write_member_line(text, head, Keyword::Rest, member)?;
    text.push_str(" ")?;
    write_request(text, request)
}

/// Appends the method, the target and the body of a request.
fn write_request(text: &mut String, request: &RequestWords) -> Result<(), AllocError>
    requires method { IsUtf8 request.now.method }
    requires target { IsUtf8 request.now.target }
    requires body { IsUtf8 request.now.body }
    ensures { OnOk result (string_bytes text.new ≡ string_bytes text.old ++ request_text request.now) }
{
    text.push_str(request.method.as_text())?;
    text.push_str(" ")?;
    text.push_str(request.target.as_text())?;
    write_request_body(text, &request.body)
}

/// Appends the body of a request behind a blank, and nothing where it is empty.
fn write_request_body(text: &mut String, body: &LineBytes) -> Result<(), AllocError>
    requires { IsUtf8 body.now }
    ensures { OnOk result (string_bytes text.new ≡ string_bytes text.old ++ body_text body.now) }
{
    let body = body.as_text();
    if body.is_empty() {
        return Ok(());
    }
    text.push_str(" ")?;
    text.push_str(body)
}

fn write_ctl(text: &mut String, said: &LineBytes) -> Result<(), AllocError>
    requires { IsCtlLine said.now }
    ensures { OnOk result (string_bytes text.new ≡ string_bytes text.old ++ ctl_text said.now) }
{
    begin_line(text, Keyword::Ctl)?;
    text.push_str(said.as_text())
}

fn write_trace(text: &mut String, on: bool) -> Result<(), AllocError>
    ensures { OnOk result (string_bytes text.new ≡ string_bytes text.old ++ spelled words.Trace (switch_text on)) }
{
    begin_line(text, Keyword::Trace)?;
    text.push_str(switch_text(on))
}

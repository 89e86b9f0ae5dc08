//! The line that a draw gives.
ghost use Rattle.std.specs.Prelude.{◌≡◌};
ghost use Rattle.generator_model.specs.Drawing.{kind_of, drawn_member, drawn_amount, drawn_size, is_even, link_command, line_of_kind, drawn_line};

use generator_model::DrawnKind;
use pat_base::MemberId;
use script_model::{Command, CommitSize, End, Line};

/// A draw is one of so many kinds.
const KIND_COUNT: u64 = 8;

/// It is about one of so many members.
const MEMBER_COUNT: u64 = 3;

/// It says an amount from 1 to this.
const GREATEST_AMOUNT: u64 = 400;

/// The kind of a draw: two draws of eight are runs, and of each other kind there is one.
fn kind_of(draw: u64) -> DrawnKind
    ensures { result ≡ kind_of draw }
{
    match draw % KIND_COUNT {
        0 | 1 => DrawnKind::Run,
        2 => DrawnKind::Commit,
        3 => DrawnKind::Suspend,
        4 => DrawnKind::Resume,
        5 => DrawnKind::Crash,
        6 => DrawnKind::StartAgent,
        _ => DrawnKind::Link,
    }
}

/// The member that a draw is about.
fn drawn_member(draw: u64) -> MemberId
    ensures { result ≡ drawn_member draw }
{
    MemberId {
        number: (draw / KIND_COUNT % MEMBER_COUNT) as u8,
    }
}

/// The amount that a draw says: of ticks, or of bytes.
fn drawn_amount(draw: u64) -> u64
    ensures { result ≡ drawn_amount draw }
{
    draw / (KIND_COUNT * MEMBER_COUNT) % GREATEST_AMOUNT + 1
}

fn drawn_size(draw: u64) -> CommitSize
    ensures { result ≡ drawn_size draw }
{
    CommitSize {
        bytes: drawn_amount(draw),
    }
}

fn is_even(amount: u64) -> bool
    ensures { result ≡ is_even amount }
{
    amount % 2 == 0
}

/// The line of the link of a member and the key store, which is cut or joined.
fn link_command(cuts: bool, member: MemberId) -> Command
    ensures { result ≡ link_command cuts member }
{
    if cuts {
        Command::Cut(End::Member(member), End::Store)
    } else {
        Command::Join(End::Member(member), End::Store)
    }
}

fn line_of_kind(kind: DrawnKind, draw: u64) -> Line
    ensures { result ≡ line_of_kind kind draw }
{
    let member = drawn_member(draw);
    match kind {
        DrawnKind::Run => Line::Run(drawn_amount(draw)),
        DrawnKind::Commit => Line::Command(Command::Commit(member, drawn_size(draw))),
        DrawnKind::Suspend => Line::Command(Command::Suspend(member)),
        DrawnKind::Resume => Line::Command(Command::Resume(member)),
        DrawnKind::Crash => Line::Command(Command::Crash(member)),
        DrawnKind::StartAgent => Line::Command(Command::StartAgent(member)),
        DrawnKind::Link => Line::Command(link_command(is_even(drawn_amount(draw)), member)),
    }
}

/// The line that a draw gives.
pub fn drawn_line(draw: u64) -> Line
    ensures { result ≡ drawn_line draw }
{
    line_of_kind(kind_of(draw), draw)
}

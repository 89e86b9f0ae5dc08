//! What the words of a command line ask for.
ghost use Rattle.std.specs.Prelude.{◌≡◌, map, option_map, string_bytes, Some};
ghost use Rattle.command_line.specs.Commands.{command_in, command_of, making_in, order_command, service_in};

use script_words::number;

/// A command.
#[derive(Clone, Copy, PartialEq, Eq)]
pub enum Order<'a> {
    /// `run`: the script of the input is played, and its run printed.
    Run,
    /// `serve MEMBER ADDRESS COUNT`: the same, and then so many connections at this address are served by this member's agent.
    Serve {
        member: &'a [u8],
        address: &'a [u8],
        count: u64,
    },
    /// `print`: the script of the input is printed as it is spelled canonically.
    Print,
    /// `gen SEED COUNT`: a script is made of a number, with so many lines that are drawn, and printed.
    Generate {
        seed: u64,
        count: u64,
    },
    /// `drill SEED COUNT`: such a script is played, and the closing summary of its run printed.
    Drill {
        seed: u64,
        count: u64,
    },
}

impl<'a> Order<'a> {
    /// The command that the words of a command line are. `None` exactly where they are none.
    pub fn read(words: &'a [String]) -> Option<Order<'a>>
        ensures { option_map order_command result ≡ command_of (map string_bytes words.now) }
    {
        match words {
            [word] => Order::alone(word.as_str()),
            [word, seed, count] => Order::making(
                word.as_str(),
                number(seed.as_bytes())?,
                number(count.as_bytes())?,
            ),
            [word, member, address, count] => Order::serving(
                word.as_str(),
                member.as_bytes(),
                address.as_bytes(),
                number(count.as_bytes())?,
            ),
            _ => None,
        }
    }

    /// The command of one word.
    fn alone(word: &str) -> Option<Order<'a>>
        ensures { option_map order_command result ≡ command_in word.now }
    {
        match word.as_bytes() {
            b"run" => Some(Order::Run),
            b"print" => Some(Order::Print),
            _ => None,
        }
    }

    /// The command of a word, a member, an address and a number.
    fn serving(word: &str, member: &'a [u8], address: &'a [u8], count: u64) -> Option<Order<'a>>
        ensures { option_map order_command result ≡ service_in word.now member.now address.now (Some count) }
    {
        match word.as_bytes() {
            b"serve" => Some(Order::Serve {
                member,
                address,
                count,
            }),
            _ => None,
        }
    }

    /// The command of a word and two numbers.
    fn making(word: &str, seed: u64, count: u64) -> Option<Order<'a>>
        ensures { option_map order_command result ≡ making_in word.now (Some seed) (Some count) }
    {
        match word.as_bytes() {
            b"gen" => Some(Order::Generate { seed, count }),
            b"drill" => Some(Order::Drill { seed, count }),
            _ => None,
        }
    }
}

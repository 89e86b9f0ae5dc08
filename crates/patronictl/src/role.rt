//! The words for the roles of members.
ghost use Rattle.std.specs.Prelude.{◌≡◌};
ghost use Rattle.patronictl.specs.Roles.{bit_if, fact_word, role_word, word_of};

use pat_cases::cases;

/// The leader key names the member.
const LEADS: u32 = 1;
/// The sync key names it as a synchronous standby.
const STANDBY: u32 = 2;

/// The answers of the table.
const LEADER: u16 = 0;

const SYNC_STANDBY: u16 = 1;

const REPLICA: u16 = 2;

/// The word for the role of a member, by whether it leads and whether it is a synchronous standby.
pub(crate) fn role_word(leads: bool, standby: bool) -> &'static str
    ensures { result.now ≡ role_word leads standby }
{
    let table = cases! {
        LEADS, 0 => LEADER;
        STANDBY, 0 => SYNC_STANDBY;
        0, 0 => REPLICA;
    };
    word_of(table.first(fact_word(leads, standby)).unwrap_or(REPLICA))
}

/// The word that has the bits of just these facts.
fn fact_word(leads: bool, standby: bool) -> u32
    ensures { result ≡ fact_word leads standby }
{
    bit_if(leads, LEADS) | bit_if(standby, STANDBY)
}

fn bit_if(holds: bool, bit: u32) -> u32
    ensures { result ≡ bit_if holds bit }
{
    if holds { bit } else { 0 }
}

/// The word of an answer of the table.
fn word_of(answer: u16) -> &'static str
    ensures { result.now ≡ word_of answer }
{
    match answer {
        LEADER => "Leader",
        SYNC_STANDBY => "Sync Standby",
        _ => "Replica",
    }
}

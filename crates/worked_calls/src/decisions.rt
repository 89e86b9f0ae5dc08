//! What an agent decides by what it shows: whether it races, and wins, whether it may hold, who acknowledged, and the plan of synchronous standbys.
use crate::bench::{TAGS, set_tag};
use crate::stop::{Stop, known};
use crate::words::{
    first_word, letter, letters, member, members, moment, position_or_none, ticks, yes_or_no,
};
use cluster_view::{AgentView, LeaderView, Snapshot};
use failsafe::{Ask, may_hold};
use leader_race::{may_race, wins};
use pat_base::{Ineligibility, MemberId, PeerAnswer, Required};
use std::alloc::{AllocError, Global};
use sync_state::{Plan, named, plan};

/// What is decided. `races`, `wins PEER ..` and `holds` are of the member that shows; `holds-waiting` while it waits for a write of the leader key;
/// `names MEMBER` of the sync key; `plans OPTION ..` of a leader; `acknowledged MEMBERS TICK ANSWER ..` of members who were asked then.
pub fn told(
    alloc: Global,
    view: &AgentView<'_>,
    seen: &Snapshot,
    asked: &str,
) -> Result<String, Stop> {
    let (word, rest) = first_word(asked);
    match word {
        "races" => Ok(eligible(alloc, may_race(view, seen))?),
        "wins" => {
            let answers = peer_answers(alloc, rest)?;
            Ok(eligible(alloc, wins(view, seen, &answers))?)
        }
        "holds" => Ok(yes_or_no(alloc, may_hold(view, false))?),
        "holds-waiting" => Ok(yes_or_no(alloc, may_hold(view, true))?),
        "names" => Ok(yes_or_no(alloc, named(seen, member(rest)?))?),
        "plans" => planned(alloc, view, seen, rest),
        "acknowledged" => acknowledged(alloc, rest),
        _ => Err(Stop::Unknown),
    }
}

/// `yes`, or what stands against it.
fn eligible(alloc: Global, judged: Result<(), Ineligibility>) -> Result<String, AllocError> {
    match judged {
        Ok(()) => String::from_str(alloc, "yes"),
        Err(Ineligibility::OtherWrites(member)) => of_member(alloc, "other writes", member),
        Err(Ineligibility::Ahead(member)) => of_member(alloc, "ahead", member),
        Err(Ineligibility::Priority(member)) => of_member(alloc, "priority", member),
        Err(Ineligibility::Candidate(member)) => of_member(alloc, "candidate", member),
        Err(other) => format!(in alloc; "{other:?}"),
    }
}

fn of_member(alloc: Global, word: &str, member: MemberId) -> Result<String, AllocError> {
    let member = letter(member);
    format!(in alloc; "{word}: {member}")
}

/// What members answered, each as `c:0/5000000`, with options behind further colons: `writes`, or a tag as `priority=2`.
fn peer_answers(alloc: Global, rest: &str) -> Result<Vec<PeerAnswer>, Stop> {
    let mut answers = Vec::new(alloc);
    if rest.is_empty() {
        return Ok(answers);
    }
    for word in rest.split(' ') {
        answers.push(peer_answer(word)?)?;
    }
    Ok(answers)
}

fn peer_answer(word: &str) -> Result<PeerAnswer, Stop> {
    let mut parts = word.split(':');
    let mut answer = PeerAnswer {
        member: member(known(parts.next())?)?,
        writes: false,
        end: position_or_none(known(parts.next())?)?,
        tags: TAGS,
    };
    for part in parts {
        match part.split_once('=') {
            Some((option, value)) => set_tag(&mut answer.tags, option, value)?,
            None => answer.writes = part == "writes",
        }
    }
    Ok(answer)
}

/// What a leader does next: `required=MEMBERS`, `noted=LSN`, and a word `b:LSN` for each replica that is connected and the position that it confirmed.
fn planned(
    alloc: Global,
    view: &AgentView<'_>,
    seen: &Snapshot,
    rest: &str,
) -> Result<String, Stop> {
    let mut leader = LeaderView {
        view: *view,
        required: Required::Nobody,
        confirmed_positions: [None; 16],
        noted: None,
    };
    for word in rest.split(' ') {
        set_confirmed(&mut leader, word)?;
    }
    Ok(plan_text(alloc, plan(&leader, seen))?)
}

fn set_confirmed(leader: &mut LeaderView<'_>, word: &str) -> Result<(), Stop> {
    match word.split_once('=') {
        Some(("required", value)) => leader.required = Required::All(members(value)?),
        Some(("noted", value)) => leader.noted = position_or_none(value)?,
        _ => {
            let (replica, confirmed) = known(word.split_once(':'))?;
            let place = usize::from(member(replica)?.number);
            let place = known(leader.confirmed_positions.get_mut(place))?;
            *place = position_or_none(confirmed)?;
        }
    }
    Ok(())
}

fn plan_text(alloc: Global, plan: Plan) -> Result<String, AllocError> {
    let (word, set) = match plan {
        Plan::Keep => return String::from_str(alloc, "keep"),
        Plan::Mark => return String::from_str(alloc, "mark"),
        Plan::SwitchOff => return String::from_str(alloc, "switch off"),
        Plan::Withdraw(set) => ("withdraw but", set),
        Plan::AddRequired(set) => ("require", set),
        Plan::Publish(set) => ("publish", set),
        Plan::DropRequired(set) => ("require only", set),
    };
    let set = letters(alloc, set)?;
    format!(in alloc; "{word} {set}")
}

/// When all had acknowledged, by answers as `b:yes:303`, in the order in which they were heard.
fn acknowledged(alloc: Global, rest: &str) -> Result<String, Stop> {
    let mut words = rest.split(' ');
    let asked = members(known(words.next())?)?;
    let mut ask = Ask::new(asked, ticks(known(words.next())?)?);
    for word in words {
        let mut parts = word.split(':');
        let from = member(known(parts.next())?)?;
        let accepted = known(parts.next())? == "yes";
        ask.heard(from, accepted, ticks(known(parts.next())?)?);
    }
    Ok(moment(alloc, ask.all())?)
}

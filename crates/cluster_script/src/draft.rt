//! A script while its lines are read.
ghost use Rattle.std.specs.Prelude.{◌≡◌, ◌≤◌, ◌+◌, length, Option, None, Some, Ok, IfOk, OnOk, OnErr, IfErr, IfSome};
ghost use Rattle.std.specs.Option.{option_copied};
ghost use Rattle.indexmap.specs.IndexMap.{keys};
ghost use Rattle.cluster_config.specs.ConfigReading.{IsConfiguration};
ghost use Rattle.pat_base.specs.declared.member_id.TheConstants.{MOST_MEMBERS};
ghost use Rattle.script_words.specs.Lines.{lines_in};
ghost use Rattle.script_model.specs.Script.{ScriptText, IsScript, config_or_default, base_or_default, member_names, members_in};
ghost use Rattle.script_grammar.specs.Reading.{Gives, IsNew, base_addition, member_addition, body_addition, addition_of, known_addition, is_config, base_after, members_after, body_after, after_counted, after_line, after_lines, at_line, finished};

use crate::arguments::line_of_words;
use crate::config_line::next_config;
use crate::first_words::keyword_of;
use crate::head_lines::{first_line, next_base, next_member, second_cluster};
use crate::members::Members;
use indexmap::IndexMap;
use pat_base::Name;
use script_grammar::{Addition, ScriptFault};
use script_model::{DEFAULT_BASE, Head, Keyword, Line, Script};
use script_words::{Fault, cut_line, cut_word, is_skipped, is_text};
use std::alloc::{AllocError, Global};
use std::marker::Model;
use store_keys::ConfigValue;

/// The longest line of a script, in bytes.
const LONGEST_LINE: usize = 8_192;

/// What the lines so far say.
#[derive(Drop)]
pub struct Draft {
    cluster: Option<Name>,
    config: Option<ConfigValue>,
    base: Option<u64>,
    members: Members,
    body: Vec<Line>,
}

impl Model for Draft {
    ghost use Rattle.std.specs.Prelude.{Option};
    ghost use Rattle.script_grammar.specs.Draft.{DraftText, IsDraft, draft_of};
    ghost use Rattle.script_model.specs.Script.{members_in};

    ghost Value = { Option DraftText };

    ghost view = { λ d. draft_of d.cluster d.config d.base (members_in d.members.entries) d.body.items };

    ghost invariant = { λ d. IsDraft d.cluster d.config d.base (members_in d.members.entries) d.body.items };
}

/// What a line `base` adds.
fn base_addition(base: Option<u64>, body: &[Line], rest: Option<&[u8]>) -> Result<Addition, Fault>
    ensures { result ≡ base_addition base body.now (option_copied rest.entry) }
{
    let base = next_base(base, body, rest)?;
    Ok(Addition::Base(base))
}

/// What a line `member` adds.
fn member_addition(members: &Members, body: &[Line], rest: Option<&[u8]>) -> Result<Addition, Fault>
    ensures value { result ≡ member_addition (keys members.now) body.now (option_copied rest.entry) }
    ensures new { IfOk result (IsNew (members_in members.now.entries)) }
{
    let (name, options) = next_member(members, body, rest)?;
    Ok(Addition::Member(name, options))
}

/// What a line of the body adds.
fn body_addition(
    alloc: Global,
    members: &Members,
    keyword: Keyword,
    rest: Option<&[u8]>,
) -> Result<Result<Addition, Fault>, AllocError>
    requires { length (keys members.now) ≤ MOST_MEMBERS }
    ensures value { IfOk result (λ outcome. outcome ≡ body_addition (keys members.now) keyword (option_copied rest.entry)) }
    ensures new { IfOk result (λ outcome. IfOk outcome (IsNew (members_in members.now.entries))) }
{
    match line_of_words(alloc, members, keyword, rest)? {
        Ok(line) => Ok(Ok(Addition::Body(line))),
        Err(fault) => Ok(Err(fault)),
    }
}

/// What a line of this first word adds, from the words behind it. The one place where first words are told apart, but for
/// those of lines of the body. It fails only for want of memory.
fn addition_of(
    alloc: Global,
    base: Option<u64>,
    members: &Members,
    body: &[Line],
    keyword: Keyword,
    rest: Option<&[u8]>,
) -> Result<Result<Addition, Fault>, AllocError>
    requires { length (keys members.now) ≤ MOST_MEMBERS }
    ensures value { IfOk result (λ outcome. outcome ≡ addition_of base (keys members.now) body.now keyword (option_copied rest.entry)) }
    ensures new { IfOk result (λ outcome. IfOk outcome (IsNew (members_in members.now.entries))) }
{
    match keyword {
        Keyword::Cluster => Ok(Err(second_cluster(rest))),
        Keyword::Base => Ok(base_addition(base, body, rest)),
        Keyword::Member => Ok(member_addition(members, body, rest)),
        _ => body_addition(alloc, members, keyword, rest),
    }
}

/// What a line other than `config` adds. It fails only for want of memory.
fn known_addition(
    alloc: Global,
    base: Option<u64>,
    members: &Members,
    body: &[Line],
    keyword: Option<Keyword>,
    rest: Option<&[u8]>,
) -> Result<Result<Addition, Fault>, AllocError>
    requires { length (members_in members.now.entries) ≤ MOST_MEMBERS }
    ensures value { IfOk result (λ outcome. outcome ≡ known_addition base (member_names (members_in members.now.entries)) body.now keyword (option_copied rest.entry)) }
    ensures new { IfOk result (λ outcome. IfOk outcome (IsNew (members_in members.now.entries))) }
{
    match keyword {
        None => Ok(Err(Fault::BadWord)),
        Some(keyword) => addition_of(alloc, base, members, body, keyword, rest),
    }
}

fn is_config(keyword: Option<Keyword>) -> bool
    ensures { result ≡ is_config keyword }
{
    matches!(keyword, Some(Keyword::Config))
}

fn apply(
    base: &mut Option<u64>,
    members: &mut Members,
    body: &mut Vec<Line>,
    added: Addition,
) -> Result<(), ScriptFault>
    requires { IsNew (members_in members.old.entries) added }
    ensures base { OnOk result (base.new ≡ base_after base.old added) }
    ensures members { OnOk result (members_in members.new.entries ≡ members_after (members_in members.old.entries) added) }
    ensures body { OnOk result (body.new.items ≡ body_after body.old.items added) }
    ensures memory { IfErr result (λ e. e ≡ ScriptFault.Memory) }
    ensures same { OnErr result ((base.new ≡ base.old) × (members_in members.new.entries ≡ members_in members.old.entries) × (body.new.items ≡ body.old.items)) }
{
    match added {
        Addition::Member(name, options) => {
            members.insert(name, options)?;
        }
        Addition::Base(n) => *base = Some(n),
        Addition::Body(line) => body.push(line)?,
    }
    Ok(())
}

/// A fault and its line.
fn located<T: Drop>(line: u64, outcome: Result<T, Fault>) -> Result<T, ScriptFault>
    ensures { Gives (λ x. x) result (at_line line outcome) }
{
    match outcome {
        Ok(value) => Ok(value),
        Err(fault) => Err(ScriptFault::At { line, fault }),
    }
}

/// The configuration that is said, or the default.
fn config_or_default(alloc: Global, said: Option<ConfigValue>) -> Result<ConfigValue, AllocError>
    requires { IfSome said IsConfiguration }
    ensures value { IfOk result (λ config. config ≡ config_or_default said) }
    ensures configured { IfOk result IsConfiguration }
{
    match said {
        None => {
            let config = ConfigValue::defaults(alloc)?;
            Ok(config)
        }
        Some(config) => Ok(config),
    }
}

/// The base that is said, or the default.
fn base_or_default(said: Option<u64>) -> u64
    ensures { result ≡ base_or_default said }
{
    match said {
        None => DEFAULT_BASE,
        Some(base) => base,
    }
}

impl Draft {
    /// A draft of no line.
    pub fn new(alloc: Global) -> Draft
        ensures { result ≡ None }
    {
        Draft {
            cluster: None,
            config: None,
            base: None,
            members: IndexMap::new(alloc),
            body: Vec::new(alloc),
        }
    }

    fn add_counted(&mut self, alloc: Global, number: u64, line: &[u8]) -> Result<(), ScriptFault>
        ensures { Gives (λ _. self.new) result (at_line number (after_counted self.old line.now)) }
    {
        if self.cluster.is_none() {
            self.cluster = Some(located(number, first_line(line))?);
            return Ok(());
        }
        let (word, rest) = cut_word(line);
        let keyword = keyword_of(word);
        if is_config(keyword) {
            let config = next_config(alloc, &self.config, &self.body, rest)?;
            self.config = Some(located(number, config)?);
            return Ok(());
        }
        let added = known_addition(alloc, self.base, &self.members, &self.body, keyword, rest)?;
        let added = located(number, added)?;
        apply(&mut self.base, &mut self.members, &mut self.body, added)
    }

    fn add_line(&mut self, alloc: Global, number: u64, line: &[u8]) -> Result<(), ScriptFault>
        ensures { Gives (λ _. self.new) result (at_line number (after_line self.old line.now)) }
    {
        if !is_text(line) {
            return Err(ScriptFault::At {
                line: number,
                fault: Fault::NotUtf8,
            });
        }
        if line.len() > LONGEST_LINE {
            return Err(ScriptFault::At {
                line: number,
                fault: Fault::TooLong,
            });
        }
        if is_skipped(line) {
            return Ok(());
        }
        self.add_counted(alloc, number, line)
    }

    /// The lines of these bytes, in order, of which the first is line 1; and the number of a line behind them. The first with a
    /// fault ends it.
    pub fn add_lines(&mut self, alloc: Global, bytes: &[u8]) -> Result<u64, ScriptFault>
        ensures value { Gives (λ _. self.new) result (after_lines 1 self.old (lines_in bytes.now)) }
        ensures end { IfOk result (λ end. end ≡ length (lines_in bytes.now) + 1) }
    {
        let mut number = 1u64;
        let mut rest = bytes;
        while let Some((line, behind)) = cut_line(rest) {
            self.add_line(alloc, number, line)?;
            number += 1;
            rest = behind;
        }
        Ok(number)
    }

    /// The script, once all lines are read. A fault stands at the line of this number.
    pub fn finish(self, alloc: Global, end: u64) -> Result<Script, ScriptFault>
        requires { (text : ScriptText) → finished self ≡ Ok text → IsScript text }
        ensures { Gives (λ script. script) result (at_line end (finished self)) }
    {
        let Draft {
            cluster,
            config,
            base,
            members,
            body,
        } = self;
        let Some(cluster) = cluster else {
            return Err(ScriptFault::At {
                line: end,
                fault: Fault::NoCluster,
            });
        };
        if members.is_empty() {
            return Err(ScriptFault::At {
                line: end,
                fault: Fault::NoMember,
            });
        }
        let config = config_or_default(alloc, config)?;
        let head = Head::new(cluster, config, base_or_default(base), members);
        Ok(Script::new(head, body))
    }
}

//! The head of a generated script.
ghost use Rattle.std.specs.Prelude.{◌≡◌, IfOk, IsTrue};
ghost use Rattle.pat_base.specs.Name.{name_bytes};
ghost use Rattle.pat_base.specs.NameText.{is_name};
ghost use Rattle.generator_model.specs.Opening.{generated_options, generated_head, generated_members};
ghost use Rattle.script_model.specs.Script.{members_in};

use indexmap::IndexMap;
use leader_key::Mode;
use member_options::MemberOptions;
use pat_base::Name;
use script_model::{DEFAULT_BASE, Head};
use std::alloc::{AllocError, Global};
use store_keys::ConfigValue;

/// The head of a generated script: the cluster `gen` without a configuration, and the members `a`, `b` and `c`, each of which
/// leads only under its watchdog. It fails only for want of memory.
pub fn generated_head(alloc: Global) -> Result<Head, AllocError>
    ensures { IfOk result (λ head. head ≡ generated_head) }
{
    let config = ConfigValue::defaults(alloc)?;
    let members = generated_members(alloc)?;
    Ok(Head::new(name(b"gen"), config, DEFAULT_BASE, members))
}

fn generated_members(alloc: Global) -> Result<IndexMap<Name, MemberOptions>, AllocError>
    ensures { IfOk result (λ members. members_in members.entries ≡ generated_members) }
{
    let mut members = IndexMap::new(alloc);
    members.insert(name(b"a"), generated_options())?;
    members.insert(name(b"b"), generated_options())?;
    members.insert(name(b"c"), generated_options())?;
    Ok(members)
}

/// The name of bytes that are one.
fn name(bytes: &[u8]) -> Name
    requires { IsTrue (is_name bytes.now) }
    ensures { name_bytes result ≡ bytes.now }
{
    match Name::read(bytes) {
        Some(name) => name,
        None => unreachable!(),
    }
}

/// What is declared of each member: nothing but that its watchdog is required.
fn generated_options() -> MemberOptions
    ensures { result ≡ generated_options }
{
    MemberOptions {
        watchdog: Mode::Required,
        ..MemberOptions::unsaid()
    }
}

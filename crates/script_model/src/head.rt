//! The head of a script.
ghost use Rattle.std.specs.Prelude.{◌≡◌, ◌≤◌, ◌↔◌, length, slice_get, IsNone};

use indexmap::IndexMap;
use member_options::MemberOptions;
use pat_base::Name;
use std::marker::Model;
use store_keys::ConfigValue;

/// The base of a script that says none: five files of 16 MiB.
pub const DEFAULT_BASE: u64 = 83_886_080;

/// The head of a script: the name of its cluster, its configuration, its base, and its members, one at least, in the order
/// of their lines.
#[derive(Drop)]
pub struct Head {
    cluster: Name,
    config: ConfigValue,
    base: u64,
    members: IndexMap<Name, MemberOptions>,
}

impl Model for Head {
    ghost use Rattle.cluster_config.specs.ConfigReading.{IsConfiguration};
    ghost use Rattle.script_model.specs.Script.{HeadText, IsHead, members_in};

    ghost Value = { HeadText };

    ghost view = { λ h. record { cluster = h.cluster; config = h.config; base = h.base; members = members_in h.members.entries } };

    ghost invariant = { λ h. IsHead (record { cluster = h.cluster; config = h.config; base = h.base; members = members_in h.members.entries }) × IsConfiguration h.config };
}

impl Head {
    ghost use Rattle.std.specs.Prelude.{◌≡◌, ◌≤◌, ◌↔◌, length, option_map, slice_get, IsNone};
    ghost use Rattle.cluster_config.specs.ConfigReading.{IsConfiguration};
    ghost use Rattle.script_model.specs.Bounds.{greatest_base};
    ghost use Rattle.pat_base.specs.declared.member_id.TheConstants.{MOST_MEMBERS};
    ghost use Rattle.script_model.specs.Script.{IsHead, members_in, names_of};

    /// The head of this cluster with this configuration, this base and these members.
    pub fn new(
        cluster: Name,
        config: ConfigValue,
        base: u64,
        members: IndexMap<Name, MemberOptions>,
    ) -> Head
        requires configured { IsConfiguration config }
        requires head { IsHead (record { cluster = cluster; config = config; base = base; members = members_in members.entries }) }
        ensures { result ≡ record { cluster = cluster; config = config; base = base; members = members_in members.entries } }
    {
        Head {
            cluster,
            config,
            base,
            members,
        }
    }

    /// The name of the cluster.
    pub fn cluster(&self) -> Name
        ensures { result ≡ self.now.cluster }
    {
        self.cluster
    }

    /// The configuration that the cluster begins with, which is what its text says. Where no line says it, nothing is set.
    pub fn config(&self) -> &ConfigValue
        ensures value { result.now ≡ self.now.config }
        ensures configured { IsConfiguration result.now }
    {
        &self.config
    }

    /// The base: how many bytes of data each server's log begins with, 1 to 2^40. Where no line says it, 83,886,080.
    pub fn base(&self) -> u64
        ensures value { result ≡ self.now.base }
        ensures some { 1 ≤ result }
        ensures most { result ≤ greatest_base }
    {
        self.base
    }

    /// How many members there are: one at least.
    pub fn member_count(&self) -> usize
        ensures value { result ≡ length self.now.members }
        ensures some { 1 ≤ result }
        ensures few { result ≤ MOST_MEMBERS }
        ensures head { IsHead self.now }
    {
        self.members.len()
    }

    /// The name of the member at this place, from 0. `None` exactly past the last member.
    pub fn member(&self, place: usize) -> Option<Name>
        ensures value { result ≡ slice_get (names_of self.now) place }
        ensures past { IsNone result ↔ (length self.now.members ≤ place) }
    {
        match self.members.get_index(place) {
            Some((name, _)) => Some(*name),
            None => None,
        }
    }

    /// What the script declares of the member at this place, from 0. `None` exactly past the last member.
    pub fn options(&self, place: usize) -> Option<MemberOptions>
        ensures value { result ≡ option_map (λ member. member.options) (slice_get self.now.members place) }
        ensures past { IsNone result ↔ (length self.now.members ≤ place) }
    {
        match self.members.get_index(place) {
            Some((_, options)) => Some(*options),
            None => None,
        }
    }
}

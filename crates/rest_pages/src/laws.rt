//! Laws of the pages. Each is a function without a body whose contract is what is proved.
ghost use Rattle.std.specs.Prelude.{ℕ, ◌≡◌, ◌≤◌, ◌+◌, true, false, Option, Some, None, codes, if◌then◌else◌};
ghost use Rattle.serde_json.specs.Data.{boolean, string, no_members};
ghost use Rattle.serde_json.specs.Find.{get_member};
ghost use Rattle.json_build.specs.Members.{natural};
ghost use Rattle.pat_base.specs.Host.{host_bytes};
ghost use Rattle.pat_base.specs.Name.{name_bytes};
ghost use Rattle.pat_base.specs.declared.host.Host.{Host};
ghost use Rattle.pat_base.specs.declared.lsn.Lsn.{Lsn};
ghost use Rattle.pat_base.specs.declared.member_id.MemberId.{MemberId};
ghost use Rattle.pat_base.specs.declared.name.Name.{Name};
ghost use Rattle.store_keys.specs.Settings.{Settings};
ghost use Rattle.store_keys.specs.declared.key.Key.TheVariants as keys;
ghost use Rattle.store_keys.specs.declared.value.KeyEntry.{KeyEntry};
ghost use Rattle.store_keys.specs.declared.value.Value.TheVariants as values;
ghost use Rattle.cluster_view.specs.Snapshots.{IsRead, SnapshotFacts, entry_in, failsafe_in};
ghost use Rattle.cluster_view.specs.declared.view.AgentView.{AgentView};
ghost use Rattle.cluster_view.specs.Naming.{leads};
ghost use Rattle.rest_pages.specs.Cluster.{lag_data, row_members};
ghost use Rattle.rest_pages.specs.Configuration.{configuration_text};
ghost use Rattle.rest_pages.specs.Failsafe.{host_members, listed_of, lists_member};
ghost use Rattle.rest_pages.specs.Laws.{HasOwnName};
ghost use Rattle.rest_pages.specs.Patroni.{is_sync_standby, patroni_members_of, role_text};
ghost use Rattle.member_rows.specs.Rows.{declared_in};
ghost use Rattle.member_rows.specs.Standbys.{names_standby};
ghost use Rattle.member_rows.specs.declared.keys.ClusterKeys.{ClusterKeys};
ghost use Rattle.member_rows.specs.declared.rows.Row.{Row};

/// In `/cluster` the leader has no lag, and each other member has one: what its log lacks of the position that the leader told last, 0
/// where it told none yet, and `unknown` just where the member has no position.
pub fn all_but_the_leader_lag()
    ensures leader { (keys : ClusterKeys) (row : Row) → leads row.member keys.leader ≡ true → get_member (codes "lag") (row_members keys row) ≡ None }
    ensures others { (keys : ClusterKeys) (row : Row) → leads row.member keys.leader ≡ false
        → get_member (codes "lag") (row_members keys row) ≡ Some (lag_data keys.status row.info.end) }
    ensures behind { (status end : Lsn) (lag : ℕ) → end.position + lag ≡ status.position → lag_data (Some status) (Some end) ≡ natural lag }
    ensures ahead { (status end : Lsn) → status.position ≤ end.position → lag_data (Some status) (Some end) ≡ natural 0 }
    ensures untold { (end : Lsn) → lag_data None (Some end) ≡ natural 0 }
    ensures unknown { (status : Option Lsn) → lag_data status None ≡ string (codes "unknown") }
{}

/// In `/cluster` a member is told as the leader where the leader key names it, and else as a synchronous standby just where the sync key
/// names it as standby.
pub fn roles_are_those_of_the_keys()
    ensures leader { (keys : ClusterKeys) (row : Row) → leads row.member keys.leader ≡ true
        → get_member (codes "role") (row_members keys row) ≡ Some (string (codes "leader")) }
    ensures standby { (keys : ClusterKeys) (row : Row) → leads row.member keys.leader ≡ false → names_standby keys.sync row.member ≡ true
        → get_member (codes "role") (row_members keys row) ≡ Some (string (codes "sync_standby")) }
    ensures replica { (keys : ClusterKeys) (row : Row) → leads row.member keys.leader ≡ false → names_standby keys.sync row.member ≡ false
        → get_member (codes "role") (row_members keys row) ≡ Some (string (codes "replica")) }
{}

/// `/patroni` always tells a role, which is `master` for a primary alone, and that the member is a synchronous standby just where it is.
pub fn patroni_tells_the_role()
    ensures role { (view : AgentView) (seen : Option SnapshotFacts)
        → get_member (codes "role") (patroni_members_of view seen) ≡ Some (string (role_text view.state)) }
    ensures standby { (view : AgentView) (seen : Option SnapshotFacts)
        → get_member (codes "sync_standby") (patroni_members_of view seen) ≡ (if is_sync_standby view.me seen then Some (boolean true) else None) }
{}

/// `/config` answers the text of the configuration that the snapshot has, which each has that was read.
pub fn config_is_that_of_the_snapshot()
    ensures { (snapshot : SnapshotFacts) → IsRead snapshot.entries
        → (found : KeyEntry) × (config : Settings) × (entry_in keys.Config snapshot ≡ Some found) × (found.value ≡ values.Config config) × (configuration_text snapshot ≡ config.text) }
{}

/// `/failsafe` has the host of a member at its name just where the failsafe key lists it, if no other member has that name; and it has
/// nobody's where the key is absent.
pub fn failsafe_has_who_is_listed()
    ensures listed { (snapshot : SnapshotFacts) (member : MemberId) (declared : Name × Host)
        → declared_in snapshot member ≡ Some declared → HasOwnName snapshot member
        → get_member (name_bytes declared.0) (host_members (listed_of snapshot (failsafe_in snapshot)))
        ≡ (if lists_member (failsafe_in snapshot) member then Some (string (host_bytes declared.1)) else None) }
    ensures nobody { (snapshot : SnapshotFacts) → failsafe_in snapshot ≡ None → host_members (listed_of snapshot (failsafe_in snapshot)) ≡ no_members }
{}

//! Laws of what is told of members. Each is a function without a body whose contract is what is proved.
ghost use Rattle.std.specs.Prelude.{◌≡◌, All, Some, count_by, map, IsSortedBy};
ghost use Rattle.std.specs.List.Sorted.{IsStrictlySortedBy};
ghost use Rattle.std.specs.Ordering.{nat_cmp};
ghost use Rattle.pat_base.specs.declared.host.Host.{Host};
ghost use Rattle.pat_base.specs.declared.member_id.MemberId.{MemberId};
ghost use Rattle.pat_base.specs.declared.name.Name.{Name};
ghost use Rattle.store_keys.specs.declared.value.MemberInfo.{MemberInfo};
ghost use Rattle.cluster_view.specs.Snapshots.{IsRead, SnapshotFacts};
ghost use Rattle.member_rows.specs.Endings.{endings};
ghost use Rattle.member_rows.specs.Laws.{is_row_of};
ghost use Rattle.cluster_view.specs.KeyValues.{info_in};
ghost use Rattle.member_rows.specs.Rows.{declared_in, is_before, row_in, rows_of};

/// Each member of the cluster with a member key has just one row, and nothing else has one: each row is that of its member.
pub fn each_member_has_one_row()
    ensures once { (snapshot : SnapshotFacts) (member : MemberId) (declared : Name × Host) (info : MemberInfo)
        → declared_in snapshot member ≡ Some declared → info_in snapshot member ≡ Some info
        → count_by (is_row_of member) (rows_of snapshot) ≡ 1 }
    ensures rows { (snapshot : SnapshotFacts) → All (λ row. row_in snapshot row.member ≡ Some row) (rows_of snapshot) }
{}

/// The rows stand in the byte order of their names.
pub fn rows_stand_by_name()
    ensures { (snapshot : SnapshotFacts) → IsSortedBy is_before (rows_of snapshot) }
{}

/// The timelines rise in the history.
pub fn timelines_rise()
    ensures { (snapshot : SnapshotFacts) → IsRead snapshot.entries → IsStrictlySortedBy nat_cmp (map (λ row. row.timeline) (endings snapshot)) }
{}

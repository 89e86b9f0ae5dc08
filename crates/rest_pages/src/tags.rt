//! The tags of a member, as JSON (Patroni documentation, "YAML Configuration Settings", "Tags").
ghost use Rattle.std.specs.Prelude.{◌≡◌, IfOk, OnOk};
ghost use Rattle.json_build.specs.Objects.{object_members};
ghost use Rattle.rest_pages.specs.Tags.{has_priority, has_tags, tags_members, with_tags};

use json_build::Object;
use pat_base::Tags;
use std::alloc::{AllocError, Global};

/// The failover priority of a member that sets none.
const USUAL_PRIORITY: i64 = 1;

/// Puts the tags that are set, if one is.
pub(crate) fn put_tags(object: &mut Object, alloc: Global, tags: &Tags) -> Result<(), AllocError>
    ensures { OnOk result (object_members object.new ≡ with_tags tags.now (object_members object.old)) }
{
    if !has_tags(tags) {
        return Ok(());
    }
    object.put_object(alloc, "tags", tags_object(alloc, tags)?)
}

/// Whether a tag is set.
fn has_tags(tags: &Tags) -> bool
    ensures { result ≡ has_tags tags.now }
{
    tags.nofailover || tags.nosync || tags.noloadbalance || has_priority(tags)
}

/// Whether the priority is another than that of members that set none.
fn has_priority(tags: &Tags) -> bool
    ensures { result ≡ has_priority tags.now }
{
    tags.failover_priority != USUAL_PRIORITY
}

fn tags_object(alloc: Global, tags: &Tags) -> Result<Object, AllocError>
    ensures { IfOk result (λ object. object_members object ≡ tags_members tags.now) }
{
    let mut object = Object::new(alloc);
    object.put_flag(alloc, "nofailover", tags.nofailover)?;
    object.put_flag(alloc, "nosync", tags.nosync)?;
    object.put_flag(alloc, "noloadbalance", tags.noloadbalance)?;
    if has_priority(tags) {
        object.put_integer(alloc, "failover_priority", tags.failover_priority)?;
    }
    Ok(object)
}

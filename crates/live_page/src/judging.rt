//! The judge of requests at the control port.
ghost use Rattle.std.specs.Prelude.{IfOk};
ghost use Rattle.live_page.specs.Judging.{Judges};
ghost use Rattle.rest_message.specs.Requests.{request_text};

use crate::origin::is_own;
use crate::wish::wish_of;
use crate::{OwnHosts, Wish};
use rest_message::Request;
use std::alloc::{AllocError, Global};

/// What a request wants whose bytes these are. `POST /line` is taken only with a field `Live-Line`, which a page of another site
/// can't send without being asked before, and where each `Host`, of which there is one at least, is one of these. It fails only
/// for want of memory.
pub fn judge(
    alloc: Global,
    request: &Request,
    bytes: &[u8],
    hosts: &OwnHosts,
) -> Result<Wish, AllocError>
    ensures { IfOk result (λ wish. Judges (request_text request.now) bytes.now hosts.now wish) }
{
    let own = is_own(alloc, bytes, hosts)?;
    Ok(wish_of(request.method, request.target.as_str(), own))
}

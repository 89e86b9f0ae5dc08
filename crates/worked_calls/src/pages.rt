//! Pages of the REST interface, and what is answered to requests.
use crate::health::reply_to;
use crate::stop::{Stop, known};
use cluster_view::{AgentView, Snapshot};
use rest_message::Verb;
use rest_pages::{cluster_text, config_text, failsafe_text, history_text, patroni_text};
use rest_paths::Routes;
use std::alloc::Global;

/// The text of a page.
pub fn page(
    alloc: Global,
    view: &AgentView<'_>,
    seen: &Snapshot,
    asked: &str,
) -> Result<String, Stop> {
    match asked {
        "patroni" => Ok(patroni_text(alloc, view)?),
        "cluster" => Ok(cluster_text(alloc, seen)?),
        "history" => Ok(history_text(alloc, seen)?),
        "failsafe" => known(failsafe_text(alloc, seen)?),
        "config" => Ok(String::from_str(alloc, config_text(seen))?),
        _ => Err(Stop::Unknown),
    }
}

/// What is answered to a method at a target, with the content `{}`: the status and the content, behind a colon where it is no JSON; or `acts`.
pub fn answered(alloc: Global, view: &AgentView<'_>, asked: &str) -> Result<String, Stop> {
    let (method, target) = known(asked.split_once(' '))?;
    let routes = Routes::new(alloc)?;
    match reply_to(alloc, view, &routes, verb_of(method)?, target)? {
        Some(reply) => {
            let sign = if reply.json { "" } else { ":" };
            let (status, body) = (reply.status, reply.body.as_str());
            Ok(format!(in alloc; "{status}{sign} {body}")?)
        }
        None => Ok(String::from_str(alloc, "acts")?),
    }
}

fn verb_of(method: &str) -> Result<Verb, Stop> {
    match method {
        "GET" => Ok(Verb::Get),
        "HEAD" => Ok(Verb::Head),
        "POST" => Ok(Verb::Post),
        "PATCH" => Ok(Verb::Patch),
        "DELETE" => Ok(Verb::Delete),
        _ => Err(Stop::Unknown),
    }
}

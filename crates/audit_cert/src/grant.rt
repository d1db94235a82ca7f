//! Grants, and the versions at which a request is judged.
ghost use Rattle.std.specs.Prelude.{◌≡◌, ◌≤◌, ◌<◌, ◌+◌, ◌++◌, List, length, OnOk};
ghost use Rattle.check_remote.specs.State.{until};
ghost use Rattle.audit_cert.specs.declared.grant.Grant.{Grant};
ghost use Rattle.audit_cert.specs.Grants.{put_in_front};

use admin_log::AdminLog;
use coop_request::Request;
use element_name::{MAX_VERSION, NoMemory};

/// Versions one after another, the first and the last, at which the authorization of this number grants.
#[derive(Clone, Copy)]
pub(crate) struct Grant {
    pub(crate) from: u32,
    pub(crate) to: u32,
    pub(crate) by: u32,
}

/// One more run goes to the current grant, or is the next one.
pub(crate) fn go_on(
    grants: &mut Vec<Grant>,
    current: &mut Grant,
    run: Grant,
) -> Result<(), NoMemory>
    ensures { OnOk result ((later : List Grant) → grants.new.items ++ put_in_front current.new later
        ≡ grants.old.items ++ put_in_front current.old (put_in_front run later)) }
{
    if run.by == current.by {
        current.to = run.to;
        return Ok(());
    }
    grants.push(*current)?;
    *current = run;
    Ok(())
}

// The last version at which the request is judged.
fn until(log: &AdminLog, request: Request) -> u32
    requires { request.version ≤ length log.now }
    ensures value { result ≡ until log.now request }
    ensures rising { request.version ≤ result }
    ensures within { result ≤ length log.now }
    ensures few { result ≤ MAX_VERSION }
{
    let front = log.len();
    match log.validated(request.id()) {
        Some(version) => version.max(request.version()),
        None => front,
    }
}

/// The version behind it.
pub(crate) fn range_end(log: &AdminLog, request: Request) -> u32
    requires { request.version ≤ length log.now }
    ensures value { result ≡ until log.now request + 1 }
    ensures rising { request.version < result }
    ensures within { result ≤ length log.now + 1 }
{
    until(log, request) + 1
}

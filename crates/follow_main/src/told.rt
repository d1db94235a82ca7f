//! What stops a follower, in a line and a status.
ghost use Rattle.std.specs.Prelude.{◌≡◌, Ok, Err, MatchResult};
ghost use Rattle.follow_main.specs.Ends.{stop_status};

use follow_talk::Stop;
use line_engine::Status;

/// The status of a stop.
pub(crate) fn status_of(stop: Stop) -> Status
    ensures { result ≡ stop_status stop }
{
    match stop {
        Stop::BadLine => Status::BadInput,
        Stop::Lost => Status::BadStore,
        Stop::StoreFull => Status::StoreFull,
        Stop::DiskFault => Status::DiskFault,
        Stop::NoMemory => Status::NoMemory,
    }
}

/// An outcome with the status of what stopped it.
pub(crate) fn or_status<T>(outcome: Result<T, Stop>) -> Result<T, Status>
    ensures { MatchResult outcome (λ x. result ≡ Ok x) (λ stop. result ≡ Err (stop_status stop)) }
{
    match outcome {
        Ok(value) => Ok(value),
        Err(stop) => Err(status_of(stop)),
    }
}

/// The line that tells of a status, where there is one.
pub(crate) fn words_of(status: Status) -> Option<&'static str> {
    match status {
        Status::DiskFault => Some("disk fault"),
        Status::StoreFull => Some("store full"),
        _ => None,
    }
}

//! What stands at a route of HTTP, and who may be told of it.
ghost use Rattle.std.specs.Prelude.{◌≡◌, Some, Err, IsSome, IfSome, IsOk};
ghost use Rattle.host_http.specs.declared.route.Route.{Route};
ghost use Rattle.host_http.specs.declared.answer.Status.{Status};
ghost use Rattle.host_edge.specs.Replies.{shows_device, key_status, part_status, refused_status};
ghost use Rattle.host_edge.specs.Slowed.{waits, CountsWrong};

use crate::desk::Desk;
use host_http::{Credential, Part, Route, Status};
use host_interface::HouseDocument;
use host_socket::Network;

/// Who asks: the device that he shows, and from where he comes, where wrong keys are counted.
#[derive(Clone, Copy)]
pub(crate) struct Asker {
    pub(crate) credential: Option<Credential>,
    pub(crate) from: Option<Network>,
}

/// What is told of what stands at a route.
#[derive(Clone, Copy)]
pub(crate) enum Found<'r> {
    /// That the host goes on.
    Health,
    /// What it counts.
    Metrics,
    /// The file of the page of this number.
    File(usize),
    /// The page of the document of this name, which stands at another path.
    Page(&'r str),
    /// A part of the document of this number, which is open.
    Part(usize, Part),
}

// Whether a device that is open is shown by its secret.
fn shows_device<D>(desk: &Desk<'_, D>, credential: Option<Credential>) -> bool
    ensures { result ≡ shows_device credential desk.entry.now.house.changes }
{
    match credential {
        Some(it) => desk.house.holder(it.site, &it.secret).is_some(),
        None => false,
    }
}

// Why what only devices are told isn't told to who asks. A wrong key is counted.
fn check_key<D>(desk: &mut Desk<'_, D>, asker: Asker) -> Option<Status>
    ensures checked { let slowed = waits asker.credential asker.from desk.old.now desk.old.limits desk.old.wrong_keys in
        result ≡ key_status slowed (shows_device asker.credential desk.old.house.changes) }
    ensures counted { (result ≡ Some Status.Unauthorized) → IsSome asker.credential → CountsWrong asker.from desk.old.now desk.old.wrong_keys desk.new.wrong_keys }
    ensures others { desk.new ≡ record desk.old { wrong_keys = desk.new.wrong_keys } }
{
    if asker.credential.is_none() {
        return Some(Status::Unauthorized);
    }
    if desk.has_to_wait(asker.from) {
        return Some(Status::TooManyRequests);
    }
    if shows_device(desk, asker.credential) {
        return None;
    }
    desk.count_wrong(asker.from);
    Some(Status::Unauthorized)
}

// The file of the page of this name.
fn file_at<'r, D>(desk: &Desk<'_, D>, name: &str) -> Result<Found<'r>, Status> {
    match desk.pages.find(name) {
        Some(number) => Ok(Found::File(number)),
        None => Err(Status::NotFound),
    }
}

// A part of a document that is opened for it.
fn opened_part<'r, 'a, D: HouseDocument<'a>>(
    desk: &mut Desk<'a, D>,
    name: &str,
    part: Part,
) -> Result<Found<'r>, Status> {
    let Some(number) = desk.house.find(name) else {
        return Err(Status::NotFound);
    };
    if desk.house.open_document(number).is_err() {
        return Err(Status::Unavailable);
    }
    desk.stay(number);
    Ok(Found::Part(number, part))
}

// A part of a document, for who shows a device's secret.
fn part_at<'r, 'a, D: HouseDocument<'a>>(
    desk: &mut Desk<'a, D>,
    name: &str,
    part: Part,
    asker: Asker,
) -> Result<Found<'r>, Status>
    ensures { let slowed = waits asker.credential asker.from desk.old.now desk.old.limits desk.old.wrong_keys in
        IfSome (key_status slowed (shows_device asker.credential desk.old.house.changes))
        (λ status. (result ≡ Err status) × (desk.new.house ≡ desk.old.house)) }
{
    match check_key(desk, asker) {
        Some(status) => Err(status),
        None => opened_part(desk, name, part),
    }
}

// What stands at a part of the document of a name.
fn document_at<'r, 'a, D: HouseDocument<'a>>(
    desk: &mut Desk<'a, D>,
    name: &'r str,
    part: Part,
    asker: Asker,
) -> Result<Found<'r>, Status>
    ensures { let slowed = waits asker.credential asker.from desk.old.now desk.old.limits desk.old.wrong_keys in
        IfSome (part_status part slowed (shows_device asker.credential desk.old.house.changes))
        (λ status. (result ≡ Err status) × (desk.new.house ≡ desk.old.house)) }
{
    match part {
        Part::Page => Ok(Found::Page(name)),
        Part::Link => Err(Status::BadRequest),
        Part::Text => part_at(desk, name, Part::Text, asker),
        Part::Journal => part_at(desk, name, Part::Journal, asker),
        Part::Certificate => part_at(desk, name, Part::Certificate, asker),
    }
}

/// What stands at a route, for who asks. Where it is refused whatever stands in the folder, nothing is opened.
pub(crate) fn found_at<'r, 'a, D: HouseDocument<'a>>(
    desk: &mut Desk<'a, D>,
    route: &'r Route,
    asker: Asker,
) -> Result<Found<'r>, Status>
    ensures health { route.now ≡ Route.Health → IsOk result }
    ensures refused { let slowed = waits asker.credential asker.from desk.old.now desk.old.limits desk.old.wrong_keys in
        IfSome (refused_status route.now slowed (shows_device asker.credential desk.old.house.changes))
        (λ status. (result ≡ Err status) × (desk.new.house ≡ desk.old.house)) }
{
    match route {
        Route::Health => Ok(Found::Health),
        Route::Metrics => Ok(Found::Metrics),
        Route::House => Err(Status::BadRequest),
        Route::Document { name, part } => document_at(desk, name.as_str(), *part, asker),
        Route::File(name) => file_at(desk, name.as_str()),
        Route::Nothing => Err(Status::NotFound),
    }
}

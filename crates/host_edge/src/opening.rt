//! Sockets that have to show a secret.
ghost use Rattle.std.specs.Prelude.{◌≡◌, true, Err, IfOk};
ghost use Rattle.host_link.specs.declared.ending.Ending.{Ending};
ghost use Rattle.host_house.specs.Household.{HoldsKey};
ghost use Rattle.host_edge.specs.Slowed.{slows, CountsWrong};

use crate::conn::{Conn, Linked, Place, Stage, Unknown};
use crate::desk::Desk;
use crate::linking::serve_linked;
use crate::room::Seat;
use host_core::{LinkId, Role};
use host_house::{Admitted, House};
use host_interface::HouseDocument;
use host_link::{
    Claim, Ending, Identity, NotOpening, Opening, device_text, read_opening, welcome_text,
};
use host_people::Secret;
use host_socket::{After, Came, Happening, Network, Socket, next_message, no_memory, send_text};

// How many messages are read before it is the others' turn.
const MOST_AT_ONCE: u32 = 16;

// What the log calls the house, where it names documents.
const NO_NAME: &str = "-";

// Lets a link in to the house.
fn enter_house<D>(desk: &Desk<'_, D>, claim: &Claim) -> Result<Admitted, Ending>
    ensures key { IfOk result (λ admitted. HoldsKey admitted.person claim.now.site claim.now.secret desk.entry.now.house.changes) }
{
    if claim.document.is_some() || claim.from != 0 {
        return Err(Ending::BadMessage);
    }
    let Some(holder) = desk.house.holder(claim.site, &claim.secret) else {
        return Err(Ending::WrongSecret);
    };
    Ok(Admitted {
        link: LinkId {
            site: claim.site,
            number: 0,
        },
        site: claim.site,
        person: holder.person,
        role: desk.house.role(holder.person).unwrap_or(Role::Reader),
    })
}

// Lets a link in to the document of a number.
fn enter_document<'a, D: HouseDocument<'a>>(
    desk: &mut Desk<'a, D>,
    number: usize,
    claim: &Claim,
) -> Result<Admitted, Ending>
    ensures key { IfOk result (λ admitted. HoldsKey admitted.person claim.now.site claim.now.secret desk.old.house.changes) }
    ensures others { desk.new ≡ record desk.old { house = desk.new.house; rooms = desk.new.rooms } }
{
    desk.make_rooms()?;
    let admitted = desk.house.admit(number, claim);
    desk.mark_unsaved(number);
    admitted
}

// Lets a link in where it wants to.
fn enter<'a, D: HouseDocument<'a>>(
    desk: &mut Desk<'a, D>,
    place: Place,
    claim: &Claim,
) -> Result<Admitted, Ending>
    ensures key { IfOk result (λ admitted. HoldsKey admitted.person claim.now.site claim.now.secret desk.old.house.changes) }
    ensures others { desk.new ≡ record desk.old { house = desk.new.house; rooms = desk.new.rooms } }
{
    match place {
        Place::House => enter_house(desk, claim),
        Place::Document(number) => enter_document(desk, number, claim),
    }
}

// Lets a link in that comes from there, unless it has to wait: then nothing is looked at. A wrong key is counted.
fn enter_from<'a, D: HouseDocument<'a>>(
    desk: &mut Desk<'a, D>,
    from: Option<Network>,
    place: Place,
    claim: &Claim,
) -> Result<Admitted, Ending>
    ensures key { IfOk result (λ admitted. HoldsKey admitted.person claim.now.site claim.now.secret desk.old.house.changes) }
    ensures slowed { slows from desk.old.now desk.old.limits desk.old.wrong_keys ≡ true → (result ≡ Err Ending.TooManyTries) × (desk.new ≡ desk.old) }
    ensures counted { result ≡ Err Ending.WrongSecret → CountsWrong from desk.old.now desk.old.wrong_keys desk.new.wrong_keys }
{
    if desk.has_to_wait(from) {
        return Err(Ending::TooManyTries);
    }
    match enter(desk, place, claim) {
        Ok(admitted) => Ok(admitted),
        Err(why) => Err(desk.counted(from, why)),
    }
}

// What a welcome says of a place: its identity, and how many messages of its journal are saved.
fn identity_of<'a, D: HouseDocument<'a>>(desk: &mut Desk<'a, D>, place: Place) -> (Identity, u32) {
    let nothing = ([0; 16], 0);
    match place {
        Place::House => nothing,
        Place::Document(number) => match desk.house.document(number) {
            Some(document) => (document.identity(), document.saved()),
            None => nothing,
        },
    }
}

// Tells a link that it is in.
fn tell_welcome<'a, D: HouseDocument<'a>>(
    desk: &mut Desk<'a, D>,
    socket: &mut Socket,
    place: Place,
    admitted: &Admitted,
) -> After {
    let (identity, saved) = identity_of(desk, place);
    let text = welcome_text(
        desk.alloc,
        &identity,
        admitted.site,
        admitted.person,
        admitted.role,
        saved,
    );
    match text {
        Ok(text) => send_text(desk.alloc, socket, text.as_str()),
        Err(_) => no_memory(),
    }
}

// The name of a document.
fn document_name<'d, 'a, D: HouseDocument<'a>>(house: &'d House<'a, D>, number: usize) -> &'d str {
    match house.documents().get(number) {
        Some(document) => document.name(),
        None => NO_NAME,
    }
}

// Notes that a link was welcomed.
fn note_linked<'a, D: HouseDocument<'a>>(desk: &mut Desk<'a, D>, place: Place, site: u16) {
    let name = match place {
        Place::House => String::from_str(desk.alloc, NO_NAME),
        Place::Document(number) => {
            String::from_str(desk.alloc, document_name(&desk.house, number))
        }
    };
    if let Ok(document) = name {
        desk.note(Happening::Linked { document, site });
    }
}

// The link of a socket that was let in.
fn linked_of<D>(desk: &Desk<'_, D>, unknown: Unknown, admitted: &Admitted) -> Linked
    ensures place { result.place ≡ unknown.place }
    ensures link { result.link ≡ admitted.now.link }
    ensures person { result.person ≡ admitted.now.person }
{
    let Unknown { socket, place, .. } = unknown;
    Linked {
        socket,
        place,
        link: admitted.link,
        site: admitted.site,
        person: admitted.person,
        writes: admitted.role != Role::Reader,
        answers: Vec::new(desk.alloc),
        answered: 0,
        ping_at: desk.now.saturating_add(desk.limits.ping),
        told_people: 0,
        told_here: 0,
        blocked: None,
    }
}

// Goes on with a link that was told that it is in, and has its seat.
fn begin_linked<'a, D: HouseDocument<'a>>(
    desk: &mut Desk<'a, D>,
    slot: usize,
    linked: Linked,
) -> Option<Conn> {
    desk.counts.links = desk.counts.links.saturating_add(1);
    note_linked(desk, linked.place, linked.site);
    let until = desk.now.saturating_add(desk.limits.silent);
    serve_linked(desk, slot, linked, until)
}

// Welcomes a socket that was let in, and goes on with it.
fn welcome<'a, D: HouseDocument<'a>>(
    desk: &mut Desk<'a, D>,
    slot: usize,
    mut unknown: Unknown,
    admitted: &Admitted,
) -> Option<Conn> {
    let place = unknown.place;
    let after = tell_welcome(desk, &mut unknown.socket, place, admitted);
    let linked = linked_of(desk, unknown, admitted);
    let seat = Seat {
        slot,
        site: admitted.site,
        person: admitted.person,
    };
    if let Err(why) = desk.seat(place, seat) {
        return desk.ended_link(slot, linked, why);
    }
    match after {
        After::Ends(why) => desk.ended_link(slot, linked, why),
        After::Gone => desk.gone_link(slot, linked),
        _ => begin_linked(desk, slot, linked),
    }
}

// Makes a device of who comes from there and shows an invitation, unless he has to wait: then nothing is looked at. A wrong key is
// counted.
fn join_from<D>(
    desk: &mut Desk<'_, D>,
    from: Option<Network>,
    secret: &Secret,
) -> Result<(u16, Secret), Ending>
    ensures slowed { slows from desk.old.now desk.old.limits desk.old.wrong_keys ≡ true → (result ≡ Err Ending.TooManyTries) × (desk.new ≡ desk.old) }
    ensures counted { result ≡ Err Ending.WrongSecret → CountsWrong from desk.old.now desk.old.wrong_keys desk.new.wrong_keys }
{
    if desk.has_to_wait(from) {
        return Err(Ending::TooManyTries);
    }
    match desk.house.join(secret) {
        Ok(made) => Ok(made),
        Err(why) => Err(desk.counted(from, why)),
    }
}

// Makes a device, and tells its secret.
fn join<D>(desk: &mut Desk<'_, D>, unknown: &mut Unknown, secret: &Secret) -> After {
    let (site, own) = match join_from(desk, unknown.from, secret) {
        Ok(made) => made,
        Err(why) => return After::Ends(why),
    };
    desk.people_changed = true;
    desk.note(Happening::Joined { site });
    match device_text(desk.alloc, site, &own) {
        Ok(text) => send_text(desk.alloc, &mut unknown.socket, text.as_str()),
        Err(_) => no_memory(),
    }
}

// A socket that isn't let in. Who showed a wrong secret is told so later.
fn turn_away<D>(desk: &mut Desk<'_, D>, socket: Socket, why: Ending) -> Option<Conn> {
    match why {
        Ending::WrongSecret => desk.ended_later(socket, why),
        _ => desk.ended(socket, why),
    }
}

// Makes a device of who shows an invitation. The socket has then as long again to say which device it is.
fn do_join<D>(desk: &mut Desk<'_, D>, mut unknown: Unknown, secret: &Secret) -> Option<Conn> {
    match join(desk, &mut unknown, secret) {
        After::Ends(why) => turn_away(desk, unknown.socket, why),
        After::Gone => {
            drop(unknown);
            None
        }
        _ => {
            let until = desk.now.saturating_add(desk.limits.hello);
            Some(Conn::ready(Stage::Unknown(unknown), until))
        }
    }
}

// Lets a link in that says which device it is, or turns it away.
fn do_hello<'a, D: HouseDocument<'a>>(
    desk: &mut Desk<'a, D>,
    slot: usize,
    unknown: Unknown,
    claim: &Claim,
) -> Option<Conn> {
    match enter_from(desk, unknown.from, unknown.place, claim) {
        Ok(admitted) => welcome(desk, slot, unknown, &admitted),
        Err(why) => turn_away(desk, unknown.socket, why),
    }
}

// Does what a first message asks for.
fn do_opening<'a, D: HouseDocument<'a>>(
    desk: &mut Desk<'a, D>,
    slot: usize,
    unknown: Unknown,
    text: &str,
) -> Option<Conn> {
    match read_opening(text) {
        Err(NotOpening::OtherVersion) => desk.ended(unknown.socket, Ending::OtherVersion),
        Err(NotOpening::Bad) => desk.ended(unknown.socket, Ending::BadMessage),
        Ok(Opening::Join { secret }) => do_join(desk, unknown, &secret),
        Ok(Opening::Hello(claim)) => do_hello(desk, slot, unknown, &claim),
    }
}

// What comes first on a socket; nothing where it says too little for too often.
fn next_said<D>(desk: &Desk<'_, D>, socket: &mut Socket) -> Came {
    for _ in 0..MOST_AT_ONCE {
        match next_message(desk.alloc, socket) {
            Came::Nothing => {}
            came => return came,
        }
    }
    Came::Nothing
}

// What becomes of a socket on which nothing was said.
fn unsaid<D>(desk: &mut Desk<'_, D>, unknown: Unknown, after: After, until: u64) -> Option<Conn> {
    match after {
        After::Ends(why) => desk.ended(unknown.socket, why),
        After::Gone => {
            drop(unknown);
            None
        }
        _ => Some(Conn::waiting(Stage::Unknown(unknown), until)),
    }
}

/// Waits for the first message of a socket.
pub(crate) fn serve_unknown<'a, D: HouseDocument<'a>>(
    desk: &mut Desk<'a, D>,
    slot: usize,
    mut unknown: Unknown,
    until: u64,
) -> Option<Conn> {
    match next_said(desk, &mut unknown.socket) {
        Came::Text(text) => do_opening(desk, slot, unknown, text.as_str()),
        Came::Frames(_) => desk.ended(unknown.socket, Ending::BadMessage),
        Came::Nothing => unsaid(desk, unknown, After::Gone, until),
        Came::Other(after) => unsaid(desk, unknown, after, until),
    }
}

//! The program of a host: `host FOLDER` serves the documents of a folder to a team.
//!
//! It reads its words, opens the house, and hands it to the loop. It knows nothing of documents, people or sockets.
#![tactic(auto)]

mod command;
mod setting;

use anyhow::{Result, anyhow};
use command::all_words;
use host_document::Document;
use host_edge::Desk;
use host_house::{House, HouseFault, Verified};
use host_http::{Origins, Pages, Routes};
use host_interface::HouseDocument;
use host_people::BookFault;
use host_socket::{Limits, WrongKeys};
use log::sink::Console;
use setting::{Setting, Task, task_of};
use std::net::{SocketAddr, TcpListener};
use std::sync::Wait;
use std::{env, fs};

// A house as this program has it, and its desk. All below is written for documents of any type.
type TextHouse<'a> = House<'a, Document<'a>>;

type TextDesk<'a> = Desk<'a, Document<'a>>;

// The number of the owner who was made first.
const FIRST_PERSON: u16 = 1;

// What a host shows besides its documents, and the wrong keys that it is shown.
#[derive(Drop)]
struct Front {
    pages: Pages,
    routes: Routes,
    origins: Origins,
    wrong_keys: WrongKeys,
}

// The words that the program was started with.
fn words(rt: &HostRuntime) -> Result<Vec<String>> {
    let mut words = Vec::new(rt.alloc());
    for word in env::args(rt)? {
        words.push(word)?;
    }
    Ok(words)
}

// The house of a folder, whose first page has this address.
fn open_house<'a>(rt: &'a HostRuntime, folder: &String, address: &str) -> Result<TextHouse<'a>> {
    let address = String::from_str(rt.alloc(), address)?;
    match TextHouse::open(rt, folder.as_str(), address) {
        Ok(house) => Ok(house),
        Err(fault) => Err(told(folder, fault)),
    }
}

// A fault of the house in words.
fn told(folder: &String, fault: HouseFault) -> anyhow::Error {
    let folder = folder.as_str();
    match fault {
        HouseFault::Book(BookFault::DiskFault) => {
            anyhow!("a host has {folder} open already, or its disk failed")
        }
        HouseFault::Book(BookFault::NotABook) => {
            anyhow!("the file of people in {folder} is damaged")
        }
        _ => anyhow!("the house of {folder} can't be used: {fault:?}"),
    }
}

// The invitation of the owner, with its number in front, where the house is new or he asked for another.
fn invitation(house: &mut TextHouse<'_>, set: &Setting) -> Result<Option<String>, HouseFault> {
    match house.begin()? {
        None if set.new_owner_key => Ok(Some(house.invite(FIRST_PERSON)?)),
        made => Ok(made),
    }
}

// The address of an invitation, behind its number.
fn address_in(invitation: &str) -> &str {
    match invitation.split_once(' ') {
        Some((_, address)) => address,
        None => invitation,
    }
}

// Prints the address of the owner's invitation, where there is one.
fn greet(rt: &HostRuntime, house: &mut TextHouse<'_>, set: &Setting) -> Result<()> {
    match invitation(house, set) {
        Ok(Some(made)) => {
            let address = address_in(made.as_str());
            println!(rt; "{address}")?;
            Ok(())
        }
        Ok(None) => Ok(()),
        Err(fault) => Err(told(&set.folder, fault)),
    }
}

// Adds the places that were named.
fn add_origins(rt: &HostRuntime, set: &Setting, origins: &mut Origins) -> Result<()> {
    for place in &set.origins {
        let place = String::from_str(rt.alloc(), place.as_str())?;
        origins.add(place)?;
    }
    Ok(())
}

// The places whose pages may ask for links.
fn origins(rt: &HostRuntime, set: &Setting) -> Result<Origins> {
    let mut origins = Origins::new(Vec::new(rt.alloc()));
    match add_origins(rt, set, &mut origins) {
        Ok(()) => Ok(origins),
        Err(error) => {
            drop(origins);
            Err(error)
        }
    }
}

// The table of the routes.
fn routes(rt: &HostRuntime) -> Result<Routes> {
    match Routes::new(rt.alloc()) {
        Ok(routes) => Ok(routes),
        Err(_) => Err(anyhow!("no memory")),
    }
}

// What a host shows besides its documents, and wrong keys of nobody.
fn shown(rt: &HostRuntime, set: &Setting) -> Result<(WrongKeys, Origins, Pages)> {
    let wrong_keys = WrongKeys::new(rt.alloc())?;
    let origins = origins(rt, set)?;
    let pages = Pages::load(rt, set.web.as_str())?;
    Ok((wrong_keys, origins, pages))
}

// Listens, and serves until the system fails. What happens is told on standard error.
fn run_desk(
    rt: &HostRuntime,
    wait: &impl Wait,
    set: &Setting,
    desk: &mut TextDesk<'_>,
) -> Result<()> {
    desk.run(wait, &Console(rt), set.listen)?;
    Ok(())
}

// Serves what stands in a house that was opened.
fn serve_house<'a>(
    rt: &'a HostRuntime,
    wait: &impl Wait,
    set: &Setting,
    house: TextHouse<'a>,
    front: Front,
) -> Result<()> {
    let Front {
        pages,
        routes,
        origins,
        wrong_keys,
    } = front;
    let mut desk = Desk::new(rt, house, pages, routes, origins, Limits::USUAL, wrong_keys);
    if set.behind_proxy {
        desk.trust_proxy();
    }
    let outcome = run_desk(rt, wait, set, &mut desk);
    drop(desk);
    outcome
}

// Greets the owner, and serves. What is large goes by a call: it takes long to prove what its end does, at each place anew.
fn serve_greeted<'a>(
    rt: &'a HostRuntime,
    wait: &impl Wait,
    set: &Setting,
    mut house: TextHouse<'a>,
    front: Front,
) -> Result<()> {
    match greet(rt, &mut house, set) {
        Ok(()) => serve_house(rt, wait, set, house, front),
        Err(error) => {
            drop(house);
            drop(front);
            Err(error)
        }
    }
}

// What a host shows, with this table of the routes.
fn front_with(rt: &HostRuntime, set: &Setting, routes: Routes) -> Result<Front> {
    match shown(rt, set) {
        Ok((wrong_keys, origins, pages)) => Ok(Front {
            pages,
            routes,
            origins,
            wrong_keys,
        }),
        Err(error) => {
            drop(routes);
            Err(error)
        }
    }
}

// Listens once, so that a house isn't made for a host that can't serve it.
fn try_listening(rt: &HostRuntime, address: SocketAddr) -> Result<()> {
    match TcpListener::bind(rt, address) {
        Ok(_) => Ok(()),
        Err(error) => Err(anyhow!(
            "a host can't listen at {address} ({error}); --port names another port"
        )),
    }
}

// Serves, until the system fails.
fn serve(rt: &HostRuntime, wait: &impl Wait, set: &Setting) -> Result<()> {
    try_listening(rt, set.listen)?;
    let front = front_with(rt, set, routes(rt)?)?;
    match open_house(rt, &set.folder, set.address.as_str()) {
        Ok(house) => serve_greeted(rt, wait, set, house, front),
        Err(error) => {
            drop(front);
            Err(error)
        }
    }
}

// Whether a folder has a house, of which nothing is made.
fn has_house(rt: &HostRuntime, folder: &str) -> Result<bool> {
    let people = format!(in rt.alloc(); "{folder}/host.people")?;
    Ok(fs::exists(rt, people.as_str())?)
}

// Tells what was found in a house of which some document may not be open.
fn tell_found(rt: &HostRuntime, house: &TextHouse<'_>, found: &Verified) -> Result<()> {
    let text = found.text.as_str();
    print!(rt; "{text}")?;
    if house
        .documents()
        .iter()
        .any(|it| it.state_word() != "closed")
    {
        return Err(anyhow!("a document can't be opened"));
    }
    if !found.is_chain_whole {
        return Err(anyhow!("a former document isn't what it was"));
    }
    Ok(())
}

// Looks at the documents of a house.
fn verify_house(rt: &HostRuntime, folder: &String, house: &mut TextHouse<'_>) -> Result<()> {
    match house.verify() {
        Ok(found) => tell_found(rt, house, &found),
        Err(fault) => Err(told(folder, fault)),
    }
}

// Looks at the documents of a folder. That one can't be opened is an error.
fn verify(rt: &HostRuntime, folder: &String) -> Result<()> {
    let place = folder.as_str();
    if !has_house(rt, place)? {
        return Err(anyhow!("there is no house in {place}"));
    }
    let mut house = open_house(rt, folder, "")?;
    let outcome = verify_house(rt, folder, &mut house);
    drop(house);
    outcome
}

// Answers words that are none of a task: an error where they are bad.
fn answer_words(rt: &HostRuntime, error: &clap::Error) -> Result<()> {
    error.print(rt)?;
    if error.use_stderr() {
        return Err(anyhow!("bad words"));
    }
    Ok(())
}

// What the words say is to be done. None where they are answered, as `--help` is.
fn read_task(rt: &HostRuntime, words: &[String]) -> Result<Option<Task>> {
    match all_words(rt.alloc())?.try_get_matches_from(words) {
        Ok(matches) => {
            let task = task_of(rt.alloc(), &matches);
            drop(matches);
            Ok(Some(task?))
        }
        Err(error) => {
            let outcome = answer_words(rt, &error);
            drop(error);
            outcome?;
            Ok(None)
        }
    }
}

// Does what is to be done.
fn do_task(rt: &HostRuntime, wait: &impl Wait, task: &Task) -> Result<()> {
    match task {
        Task::Host(set) => serve(rt, wait, set),
        Task::Verify(folder) => verify(rt, folder),
    }
}

// Does what words say is to be done, if they do.
fn do_words(rt: &HostRuntime, wait: &impl Wait, words: &[String]) -> Result<()> {
    match read_task(rt, words)? {
        Some(task) => {
            let outcome = do_task(rt, wait, &task);
            drop(task);
            outcome
        }
        None => Ok(()),
    }
}

fn main(rt: HostRuntime) -> Result<()> {
    let words = words(&rt)?;
    do_words(&rt, &rt, &words)
}

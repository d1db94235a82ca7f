//! What stands at a path.

use matchit::{InsertError, Router};
use std::alloc::{AllocError, Global};

/// A part of a document that can be asked for.
#[derive(Clone, Copy, Debug, PartialEq, Eq)]
pub enum Part {
    /// Its page, where the path lacks its last slash.
    Page,
    /// Its links.
    Link,
    /// Its text.
    Text,
    /// The frames of its journal.
    Journal,
    /// The frames of its journal, and their certificate.
    Certificate,
}

/// What stands at a path.
#[derive(Debug, Drop)]
pub enum Route {
    /// Whether the host goes on.
    Health,
    /// What it counts.
    Metrics,
    /// The links of the house, by which documents and people are kept.
    House,
    /// A part of the document of this name.
    Document { name: String, part: Part },
    /// The file of a page, of this name.
    File(String),
    /// Nothing.
    Nothing,
}

// What the routes of the table stand for.
#[derive(Clone, Copy, Debug, PartialEq, Eq)]
enum Target {
    Health,
    Metrics,
    House,
    Index,
    File,
    Document,
    DocumentPart,
}

/// The table of the routes.
#[derive(Drop)]
pub struct Routes {
    router: Router<Target>,
}

// The part of this name; none where it is a file of the page.
fn part_of(name: &str) -> Option<Part> {
    match name.as_bytes() {
        b"link" => Some(Part::Link),
        b"text" => Some(Part::Text),
        b"journal" => Some(Part::Journal),
        b"certificate" => Some(Part::Certificate),
        _ => None,
    }
}

// The path without what stands behind a question mark.
fn plain_path(path: &str) -> &str {
    path.split('?').next().unwrap_or(path)
}

impl Routes {
    /// The table. It takes memory for each route.
    pub fn new(alloc: Global) -> Result<Routes, InsertError> {
        let mut router = Router::new(alloc);
        router.insert("/", Target::Index)?;
        router.insert("/healthz", Target::Health)?;
        router.insert("/metrics", Target::Metrics)?;
        router.insert("/link", Target::House)?;
        router.insert("/{file}", Target::File)?;
        router.insert("/d/{name}", Target::Document)?;
        router.insert("/d/{name}/", Target::Index)?;
        router.insert("/d/{name}/{part}", Target::DocumentPart)?;
        Ok(Routes { router })
    }

    /// What stands at this path. What follows a question mark is let go.
    pub fn at(&self, alloc: Global, path: &str) -> Result<Route, AllocError> {
        let Ok(found) = self.router.at(plain_path(path)) else {
            return Ok(Route::Nothing);
        };
        let name = found.params.get("name").unwrap_or("");
        match *found.value {
            Target::Health => Ok(Route::Health),
            Target::Metrics => Ok(Route::Metrics),
            Target::House => Ok(Route::House),
            Target::Index => file_route(alloc, "index.html"),
            Target::File => file_route(alloc, found.params.get("file").unwrap_or("")),
            Target::Document => document_route(alloc, name, Part::Page),
            Target::DocumentPart => part_route(alloc, name, found.params.get("part").unwrap_or("")),
        }
    }
}

fn file_route(alloc: Global, name: &str) -> Result<Route, AllocError> {
    Ok(Route::File(String::from_str(alloc, name)?))
}

fn document_route(alloc: Global, name: &str, part: Part) -> Result<Route, AllocError> {
    Ok(Route::Document {
        name: String::from_str(alloc, name)?,
        part,
    })
}

// What stands below a document: a part of it, or a file of the page.
fn part_route(alloc: Global, name: &str, part: &str) -> Result<Route, AllocError> {
    match part_of(part) {
        Some(part) => document_route(alloc, name, part),
        None => file_route(alloc, part),
    }
}

//! The files of a page.

use std::{fs, io};

// What a file of a page is. It is no `&'static str`: who holds that isn't proved to call what a lifetime bounds.
#[derive(Clone, Copy)]
enum Kind {
    Document,
    Style,
    Script,
    Module,
    Drawing,
    Picture,
}

impl Kind {
    // As a browser names it.
    fn words(self) -> &'static str {
        match self {
            Kind::Document => "text/html; charset=utf-8",
            Kind::Style => "text/css; charset=utf-8",
            Kind::Script => "text/javascript; charset=utf-8",
            Kind::Module => "application/wasm",
            Kind::Drawing => "image/svg+xml",
            Kind::Picture => "image/png",
        }
    }
}

/// A file of a page.
#[derive(Drop)]
pub struct PageFile {
    name: String,
    kind: Kind,
    bytes: Vec<u8>,
}

impl PageFile {
    /// What it is, as a browser names it.
    pub fn kind(&self) -> &'static str {
        self.kind.words()
    }

    /// Its bytes.
    pub fn bytes(&self) -> &[u8] {
        &self.bytes
    }
}

// What a file of this name is; none where it is no part of a page.
fn kind_of(name: &str) -> Option<Kind> {
    let (_, ending) = name.rsplit_once('.')?;
    match ending.as_bytes() {
        b"html" => Some(Kind::Document),
        b"css" => Some(Kind::Style),
        b"mjs" => Some(Kind::Script),
        b"wasm" => Some(Kind::Module),
        b"svg" => Some(Kind::Drawing),
        b"png" => Some(Kind::Picture),
        _ => None,
    }
}

/// The files of a page, in memory.
#[derive(Drop)]
pub struct Pages {
    files: Vec<PageFile>,
}

impl Pages {
    /// Those that stand in a folder, whose names end as those of a page do. They are read once.
    pub fn load(rt: &HostRuntime, folder: &str) -> io::Result<Pages> {
        let alloc = rt.alloc();
        let mut files = Vec::new(alloc);
        for entry in fs::read_dir(rt, folder)? {
            let entry = entry?;
            if let Some(kind) = kind_of(entry.file_name()) {
                let name = String::from_str(alloc, entry.file_name())?;
                let bytes = fs::read(rt, entry.path())?;
                files.push(PageFile { name, kind, bytes })?;
            }
        }
        Ok(Pages { files })
    }

    /// The number of the file of this name.
    pub fn find(&self, name: &str) -> Option<usize> {
        self.files.iter().position(|it| it.name.as_str() == name)
    }

    /// The file of a number.
    pub fn file(&self, number: usize) -> Option<&PageFile> {
        self.files.get(number)
    }
}

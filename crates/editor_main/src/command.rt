//! The commands, by their words.
ghost use Rattle.std.specs.Prelude.{◌≡◌, ◌<◌, ◌≤◌, ◌^◌, ℕ, [], ◌∷◌, Some, IfSome, option_map};
ghost use Rattle.std.specs.Str.{is_utf8};
ghost use Rattle.edit_make.specs.declared.limits.TheConstants.{MAX_EDITS};
ghost use Rattle.line_read.specs.Numbers.{read_number};
ghost use Rattle.editor_main.specs.Forms as arguments;
ghost use Rattle.editor_main.specs.Command.{read_positive, is_file_name, numbers_of, command_with, command_of};

use crate::form::{Form, form_of};
use crate::limits::{
    MAX_FILE_NAME, MAX_LINKS, MAX_PORT, MAX_READS, MAX_ROUNDS, MAX_SEED, MAX_SITE,
};
use crate::word::Word;
use bstr::ByteSlice;
use edit_make::MAX_EDITS;
use line_read::read_number;

/// What words ask for: the form that is to run, and what it is run with.
#[derive(Clone, Copy, Debug, PartialEq, Eq)]
pub(crate) enum Command {
    /// The script that the source gives is played.
    Replay,
    /// The frames that the source gives are fed to the peer of this site.
    Feed(u16),
    /// The script of this seed, with so many edit lines, is played, and a summary is written.
    Make { seed: u32, edits: u32 },
    /// The step lines that the source gives are raced over one peer of this site.
    Race(u16),
    /// A peer of this site serves so many links on this port, beside the step lines that the source gives.
    Serve { site: u16, port: u16, links: u32 },
    /// A peer of this site makes the step lines that the source gives, and dials this port for so many rounds.
    Dial { site: u16, port: u16, rounds: u32 },
    /// The step lines that the source gives are made on a peer of this site, and so often its text is read beside them.
    Watch { site: u16, reads: u32 },
    /// The frames that the source gives are fed to the peer of this site, and its journal is written with its certificate.
    Certify(u16),
    /// The journal and the certificate that the source gives are checked.
    Audit,
    /// The step lines that the source gives are made on the peer of this site, which is kept in the file of the last word.
    Keep(u16),
}

fn is_text(word: &[u8]) -> bool
    ensures { result ≡ is_utf8 word.now }
{
    word.is_utf8()
}

fn is_file_name(word: &[u8]) -> bool
    ensures { result ≡ is_file_name word.now }
{
    !word.is_empty() && word.len() <= MAX_FILE_NAME && is_text(word)
}

fn read_site(word: &Word) -> Option<u16>
    ensures { result ≡ read_number MAX_SITE word.now }
{
    let site = read_number(MAX_SITE, word.bytes())?;
    Some(site as u16)
}

// A number from 1 on.
fn read_positive(max: u64, word: &Word) -> Option<u64>
    requires { max < 2 ^ 60 }
    ensures value { result ≡ read_positive max word.now }
    ensures few { IfSome result (λ number. number ≤ max) }
{
    let number = read_number(max, word.bytes())?;
    if number == 0 {
        return None;
    }
    Some(number)
}

fn read_port(word: &Word) -> Option<u16>
    ensures { result ≡ read_positive MAX_PORT word.now }
{
    let port = read_positive(MAX_PORT, word)?;
    Some(port as u16)
}

// SITE
fn site_alone(words: &[Word]) -> Option<u16>
    ensures { numbers_of (arguments.Site ∷ []) words.now ≡ option_map (λ site. site ∷ []) result }
{
    let [site] = words else {
        return None;
    };
    read_site(site)
}

// SEED EDITS
fn seed_and_edits(words: &[Word]) -> Option<(u32, u32)>
    ensures numbers { numbers_of (arguments.Seed ∷ arguments.Edits ∷ []) words.now
        ≡ option_map (λ pair. pair.0 ∷ pair.1 ∷ []) result }
    ensures few { IfSome result (λ pair. pair.1 ≤ MAX_EDITS) }
{
    let [seed, edits] = words else {
        return None;
    };
    let seed = read_number(MAX_SEED, seed.bytes())?;
    let edits = read_number(u64::from(MAX_EDITS), edits.bytes())?;
    Some((seed as u32, edits as u32))
}

// SITE PORT LINKS
fn site_port_and_links(words: &[Word]) -> Option<(u16, u16, u32)>
    ensures numbers { numbers_of (arguments.Site ∷ arguments.Port ∷ arguments.Links ∷ []) words.now
        ≡ option_map (λ all. all.0 ∷ all.1 ∷ all.2 ∷ []) result }
    ensures few { IfSome result (λ all. all.2 ≤ MAX_LINKS) }
{
    let [site, port, links] = words else {
        return None;
    };
    let site = read_site(site)?;
    let port = read_port(port)?;
    let links = read_positive(MAX_LINKS, links)?;
    Some((site, port, links as u32))
}

// SITE PORT ROUNDS
fn site_port_and_rounds(words: &[Word]) -> Option<(u16, u16, u32)>
    ensures { numbers_of (arguments.Site ∷ arguments.Port ∷ arguments.Rounds ∷ []) words.now
        ≡ option_map (λ all. all.0 ∷ all.1 ∷ all.2 ∷ []) result }
{
    let [site, port, rounds] = words else {
        return None;
    };
    let site = read_site(site)?;
    let port = read_port(port)?;
    let rounds = read_positive(MAX_ROUNDS, rounds)?;
    Some((site, port, rounds as u32))
}

// SITE READS
fn site_and_reads(words: &[Word]) -> Option<(u16, u32)>
    ensures { numbers_of (arguments.Site ∷ arguments.Reads ∷ []) words.now
        ≡ option_map (λ pair. pair.0 ∷ pair.1 ∷ []) result }
{
    let [site, reads] = words else {
        return None;
    };
    let site = read_site(site)?;
    let reads = read_positive(MAX_READS, reads)?;
    Some((site, reads as u32))
}

// SITE FILE
fn site_of_file(words: &[Word]) -> Option<u16>
    ensures { numbers_of (arguments.Site ∷ arguments.File ∷ []) words.now ≡ option_map (λ site. site ∷ 0 ∷ []) result }
{
    let [site, file] = words else {
        return None;
    };
    let site = read_site(site)?;
    is_file_name(file.bytes()).then_some(site)
}

// The command of a form, by the words behind its name.
fn command_with(form: Form, words: &[Word]) -> Option<Command>
    ensures command { result ≡ command_with form words.now }
    ensures edits { (seed edits : ℕ) → result ≡ Some (Command.Make seed edits) → edits ≤ MAX_EDITS }
    ensures links { (site port links : ℕ) → result ≡ Some (Command.Serve site port links) → links ≤ MAX_LINKS }
{
    match form {
        Form::Replay => words.is_empty().then_some(Command::Replay),
        Form::Feed => Some(Command::Feed(site_alone(words)?)),
        Form::Make => {
            let (seed, edits) = seed_and_edits(words)?;
            Some(Command::Make { seed, edits })
        }
        Form::Race => Some(Command::Race(site_alone(words)?)),
        Form::Serve => {
            let (site, port, links) = site_port_and_links(words)?;
            Some(Command::Serve { site, port, links })
        }
        Form::Dial => {
            let (site, port, rounds) = site_port_and_rounds(words)?;
            Some(Command::Dial { site, port, rounds })
        }
        Form::Watch => {
            let (site, reads) = site_and_reads(words)?;
            Some(Command::Watch { site, reads })
        }
        Form::Certify => Some(Command::Certify(site_alone(words)?)),
        Form::Audit => words.is_empty().then_some(Command::Audit),
        Form::Keep => Some(Command::Keep(site_of_file(words)?)),
    }
}

/// The command that words name, if they name one.
pub(crate) fn command_of(words: &[Word]) -> Option<Command>
    ensures command { result ≡ command_of words.now }
    ensures edits { (seed edits : ℕ) → result ≡ Some (Command.Make seed edits) → edits ≤ MAX_EDITS }
    ensures links { (site port links : ℕ) → result ≡ Some (Command.Serve site port links) → links ≤ MAX_LINKS }
{
    let [name, words @ ..] = words else {
        return None;
    };
    let form = form_of(name.bytes())?;
    command_with(form, words)
}

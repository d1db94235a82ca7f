//! Which faults were met.
ghost use Rattle.std.specs.Prelude.{◌≡◌, ◌+◌, ◌^◌, ◌<◌, ◌++◌, IfOk, OnOk, length, option_to_list};
ghost use Rattle.form_link.specs.Faults.{own_fault, outcome_fault, faults_of, link_faults};

use element_name::NoMemory;
use line_input::InputEnd;
use link_run::OwnEnd;
use session_core::SessionFault;
use std::alloc::Global;

/// What kept the door, the caller's own steps or a session from going on.
#[derive(Clone, Copy, Debug)]
pub enum Fault {
    /// The door failed where it was to listen, to accept or to connect.
    Door,
    /// The step line of this number, counted from 1, is bad.
    BadLine(u64),
    /// The input of step lines is too long, or its steps met the full run.
    TooLong,
    /// The source of the step lines failed.
    Read,
    /// Memory was wanting for the own steps.
    NoMemory,
    /// The session on the link of this number, counted from 1, was cut.
    Link { number: u64, fault: SessionFault },
}

// The fault that cut the own steps, by how reading them ended and how making them did; none where none was to be made.
fn own_fault(end: InputEnd, own: Option<OwnEnd>) -> Option<Fault>
    ensures { result ≡ own_fault end own }
{
    match own? {
        OwnEnd::RunFull => Some(Fault::TooLong),
        OwnEnd::NoMemory => Some(Fault::NoMemory),
        OwnEnd::Done => match end {
            InputEnd::Whole => None,
            InputEnd::BadLine(number) => Some(Fault::BadLine(number)),
            InputEnd::TooLong => Some(Fault::TooLong),
            InputEnd::ReadFault => Some(Fault::Read),
            InputEnd::NoMemory => Some(Fault::NoMemory),
        },
    }
}

// The fault that cut the session on a link.
fn outcome_fault(number: u64, outcome: &Option<Result<u32, SessionFault>>) -> Option<Fault>
    ensures { result ≡ outcome_fault number outcome.now }
{
    match outcome {
        Some(Err(fault)) => Some(Fault::Link {
            number,
            fault: *fault,
        }),
        _ => None,
    }
}

// Puts a fault last, if there is one.
fn push_fault(faults: &mut Vec<Fault>, fault: Option<Fault>) -> Result<(), NoMemory>
    ensures { OnOk result (faults.new.items ≡ faults.old.items ++ option_to_list fault) }
{
    if let Some(fault) = fault {
        faults.push(fault)?;
    }
    Ok(())
}

// Puts the faults of the links last, in order.
fn push_links(
    faults: &mut Vec<Fault>,
    links: &[Option<Result<u32, SessionFault>>],
) -> Result<(), NoMemory>
    ensures { OnOk result (faults.new.items ≡ faults.old.items ++ link_faults 1 links.now) }
{
    for (i, outcome) in links.iter().enumerate() {
        push_fault(faults, outcome_fault(i as u64 + 1, outcome))?;
    }
    Ok(())
}

/// The faults of a run, in the order in which they are told: that of the door first, then that of the own steps, by how
/// reading them and making them ended, and then those of the sessions by the numbers of their links.
pub fn faults_of(
    alloc: Global,
    door_failed: bool,
    end: InputEnd,
    own: Option<OwnEnd>,
    links: &[Option<Result<u32, SessionFault>>],
) -> Result<Vec<Fault>, NoMemory>
    ensures { IfOk result (λ faults. faults.items ≡ faults_of door_failed end own links.now) }
{
    let mut faults = Vec::new(alloc);
    if door_failed {
        faults.push(Fault::Door)?;
    }
    push_fault(&mut faults, own_fault(end, own))?;
    push_links(&mut faults, links)?;
    Ok(faults)
}

//! The forms of the program, and how their words are told.
ghost use Rattle.std.specs.Prelude.{◌≡◌, ◌++◌, ℕ, List, map, IfOk, OnOk};
ghost use Rattle.line_engine.specs.Engine.{Says, StatusCause};
ghost use Rattle.line_spelling.specs.Values.{behind_spaces};
ghost use Rattle.editor_main.specs.Forms.{form_name, arguments_of, argument_text, form_of, forms_text, usage_line};
ghost use Rattle.editor_main.specs.Plain.{usage_output};

use edit_io::Sink;
use line_engine::{Status, say};
use line_spelling::LINE_END;
use std::alloc::{AllocError, Global};

/// A form of the program. What each is run with is said by its [`Command`](crate::command::Command).
#[derive(Clone, Copy, Debug, PartialEq, Eq)]
pub(crate) enum Form {
    Replay,
    Feed,
    Make,
    Race,
    Serve,
    Dial,
    Watch,
    Certify,
    Audit,
    Keep,
}

/// All forms, in the order of the usage line.
pub(crate) const FORMS: [Form; 10] = [
    Form::Replay,
    Form::Feed,
    Form::Make,
    Form::Race,
    Form::Serve,
    Form::Dial,
    Form::Watch,
    Form::Certify,
    Form::Audit,
    Form::Keep,
];

impl Form {
    // The first word of the form.
    fn name(self) -> &'static [u8]
        ensures { result.now ≡ form_name self }
    {
        match self {
            Form::Replay => b"replay",
            Form::Feed => b"feed",
            Form::Make => b"make",
            Form::Race => b"race",
            Form::Serve => b"serve",
            Form::Dial => b"dial",
            Form::Watch => b"watch",
            Form::Certify => b"certify",
            Form::Audit => b"audit",
            Form::Keep => b"keep",
        }
    }

    // What stands behind the name in the usage line.
    fn arguments(self) -> &'static [u8]
        ensures { result.now ≡ behind_spaces (map argument_text (arguments_of self)) }
    {
        match self {
            Form::Replay | Form::Audit => b"",
            Form::Feed | Form::Race | Form::Certify => b" SITE",
            Form::Make => b" SEED EDITS",
            Form::Serve => b" SITE PORT LINKS",
            Form::Dial => b" SITE PORT ROUNDS",
            Form::Watch => b" SITE READS",
            Form::Keep => b" SITE FILE",
        }
    }
}

/// The form of this name.
pub(crate) fn form_of(name: &[u8]) -> Option<Form>
    ensures { result ≡ form_of name.now }
{
    FORMS.iter().copied().find(|form| form.name() == name)
}

// Appends forms, the first behind this sign, and each later one behind a bar.
fn put_forms(line: &mut Vec<u8>, sign: &[u8], forms: &[Form]) -> Result<(), AllocError>
    ensures { OnOk result (line.new.items ≡ line.old.items ++ forms_text sign.now forms.now) }
{
    let [form, later @ ..] = forms else {
        return Ok(());
    };
    line.extend_from_slice(sign)?;
    line.extend_from_slice(form.name())?;
    line.extend_from_slice(form.arguments())?;
    put_forms(line, b" | ", later)
}

// The line that is written where words name no form.
fn usage_line(alloc: Global) -> Result<Vec<u8>, AllocError>
    ensures { IfOk result (λ line. line.items ≡ usage_line) }
{
    let mut line = Vec::new(alloc);
    put_forms(&mut line, b"usage: ", &FORMS)?;
    line.push(LINE_END)?;
    Ok(line)
}

/// Writes the words of all forms.
pub(crate) fn say_usage<K: Sink>(alloc: Global, sink: &mut K) -> Status
    ensures says { (written : List ℕ) × Says (K.written sink.old) (K.written sink.new) result usage_output written }
    ensures cause { StatusCause (K.faults sink.old) (K.faults sink.new) result Status.WriteFault }
{
    match usage_line(alloc) {
        Ok(line) => say(sink, &line, Status::Usage),
        Err(_) => Status::NoMemory,
    }
}

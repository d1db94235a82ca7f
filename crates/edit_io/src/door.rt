//! What links come from, and go back to.
ghost use Rattle.std.specs.Prelude.{◌≡◌, ℕ, ◌+◌, ◌<◌, ◌∷◌, [], List, IfOk};
ghost use Rattle.std.specs.declared.option.Option.{Option};
ghost use Rattle.edit_io.specs.Link.{with_last};
ghost use Rattle.edit_io.specs.Door.{failed_by, given_by, hurt_by, IsUnused, HasRoom};

use crate::fail::Failed;
use crate::link::Link;

/// A door to the other programs of this machine. Each link that it gives is to be given back.
pub trait Door {
    /// A link that it gives. It may be handed to another thread.
    type Line: Link + Send + Drop;

    // How often `listen`, `accept` or `connect` failed.
    ghost faults: { Self → ℕ };

    // How many links it has given.
    ghost given: { Self → ℕ };

    // How many links came back.
    ghost returned: { Self → ℕ };

    // How many of these had failed.
    ghost hurt: { Self → ℕ };

    // The links that came back, in the order in which they came, where the door tells them.
    ghost used: { Self → Option (List Self.Line) };

    /// Listens on a port of this machine.
    fn listen(&mut self, port: u16) -> Result<(), Failed>
        requires { HasRoom (faults self.old) (given self.old) }
        ensures faults { faults self.new ≡ faults self.old + failed_by result }
        ensures given { given self.new ≡ given self.old }
        ensures returned { returned self.new ≡ returned self.old }
        ensures hurt { hurt self.new ≡ hurt self.old }
        ensures used { used self.new ≡ used self.old };

    /// Gives a link to the next program that connects to the port that it listens on. It may wait for one.
    fn accept(&mut self) -> Result<Self::Line, Failed>
        requires { HasRoom (faults self.old) (given self.old) }
        ensures unused { IfOk result (λ line. IsUnused (Self.Line.faults line) (Self.Line.closes line)
            (Self.Line.got line) (Self.Line.sent line)) }
        ensures faults { faults self.new ≡ faults self.old + failed_by result }
        ensures given { given self.new ≡ given self.old + given_by result }
        ensures returned { returned self.new ≡ returned self.old }
        ensures hurt { hurt self.new ≡ hurt self.old }
        ensures used { used self.new ≡ used self.old };

    /// Gives a link to the program that listens on this port.
    fn connect(&mut self, port: u16) -> Result<Self::Line, Failed>
        requires { HasRoom (faults self.old) (given self.old) }
        ensures unused { IfOk result (λ line. IsUnused (Self.Line.faults line) (Self.Line.closes line)
            (Self.Line.got line) (Self.Line.sent line)) }
        ensures faults { faults self.new ≡ faults self.old + failed_by result }
        ensures given { given self.new ≡ given self.old + given_by result }
        ensures returned { returned self.new ≡ returned self.old }
        ensures hurt { hurt self.new ≡ hurt self.old }
        ensures used { used self.new ≡ used self.old };

    /// Takes back a link that is used no more, and closes it.
    fn back(&mut self, line: Self::Line)
        requires { returned self.old < given self.old }
        ensures faults { faults self.new ≡ faults self.old }
        ensures given { given self.new ≡ given self.old }
        ensures returned { returned self.new ≡ returned self.old + 1 }
        ensures hurt { hurt self.new ≡ hurt self.old + hurt_by (Self.Line.faults line) }
        ensures used { used self.new ≡ with_last (used self.old) (line ∷ []) };
}

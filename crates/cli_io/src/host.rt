//! What a host does for a call. All that a call reads, writes and reports goes through it.
ghost use Rattle.std.specs.Prelude.{◌≡◌, IfOk, IfErr};
ghost use Rattle.std.specs.declared.option.Option.{Option};
ghost use Rattle.rules.specs.Text.{Text};
ghost use Rattle.cli_io.specs.World.{World, name_of, ReadsFront, FailsToRead, Writes, Takes};

use cli_error::What;
use std::alloc::Global;

/// What failed, and the system's words; none if there was no memory for them.
#[derive(Drop)]
pub struct HostError {
    pub what: What,
    pub reason: Option<Vec<u8>>,
}

/// What a host does for a call.
pub trait Host {
    /// A file that is open.
    type Stream: Drop;

    // What its methods do, as facts of the states before and after.
    ghost world: { World Self };

    // The name by which a file was opened.
    ghost named: { Self.Stream → Option Text };

    /// What makes room in memory.
    fn alloc(&self) -> Global;

    /// Reads the file of a name, or standard input, to its end, keeps its front, and returns how many bytes there are.
    fn read(&mut self, name: Option<&str>, front: &mut [u8]) -> Result<usize, HostError>
        ensures { ReadsFront (world.reads self.old self.new (name_of name.entry)) front.new result };

    /// Opens the file of a name, or standard input.
    fn open(&mut self, name: Option<&str>) -> Result<Self::Stream, HostError>
        ensures opens { IfOk result (λ s. world.opens self.old self.new (name_of name.entry) × (named s ≡ name_of name.entry)) }
        ensures fails { IfErr result (FailsToRead (world.reads self.old self.new (name_of name.entry))) };

    /// Reads the next bytes of a file: none at its end.
    fn take(&mut self, stream: &mut Self::Stream, chunk: &mut [u8]) -> Result<usize, HostError>
        ensures same { named stream.new ≡ named stream.old }
        ensures takes { IfOk result (Takes (world.takes self.old self.new (named stream.old)) chunk.new) }
        ensures fails { IfErr result (FailsToRead (world.reads self.old self.new (named stream.old))) };

    /// Writes a text as the whole of the file of a path, or to standard output.
    fn write(&mut self, to: Option<&str>, text: &[u8]) -> Result<(), HostError>
        ensures { Writes (world.writes self.old self.new (name_of to.entry) text.now) result };

    /// Writes a text to standard error. If that fails nobody is left to tell.
    fn report(&mut self, text: &[u8])
        ensures { world.reports self.old self.new text.now };
}

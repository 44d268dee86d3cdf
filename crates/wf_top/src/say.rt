//! The last words of a command.

ghost use Rattle.std.specs.Prelude.{◌≡◌};
ghost use Rattle.wf_top.specs.Ends.{Said};

use wf_io::{IoError, Sink};

/// Puts the text in one piece, and gives the status, or the status that takes its place: 10 for
/// want of memory, and 11 for a fault of the sink.
pub fn say<O: Sink>(out: &mut O, text: &[u8], status: u8) -> u8
    ensures { Said status text.now (O.taken out.old) (O.taken out.new) (O.faults out.old)
        (O.faults out.new) result }
{
    match out.put(text) {
        Ok(()) => status,
        Err(IoError::Memory) => 10,
        Err(IoError::Fault) => 11,
    }
}

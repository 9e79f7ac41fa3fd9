// What is written on an output: the line of a reply, whole.
ghost use Rattle.std.specs.Prelude.{◌≡◌, ℕ, IfOk, IfErr, OnOk, OnErr, take, string_bytes};
ghost use Rattle.std.specs.Io.KnownBytes.{Appends};
ghost use Rattle.std.specs.IoError.{error_kind};
ghost use Rattle.programs.specs.Printed.{IsLineOf};

use planner::error::PlanError;
use std::alloc::Global;
use std::fmt::Display;
use std::io;
use std::io::{ErrorKind, Write};

// The line that a reply is printed as. Want of memory is an error, and has none.
pub(crate) fn line<A: Display + Drop>(
    heap: Global,
    reply: Result<A, PlanError>,
) -> io::Result<String>
    ensures text { IfOk result (λ s. IsLineOf A.output reply (string_bytes s)) }
    ensures memory { IfErr result (λ e. error_kind e ≡ ErrorKind.OutOfMemory) }
{
    match reply {
        Ok(answer) => Ok(format!(in heap; "{answer}\n")?),
        Err(PlanError::NoMemory) => Err(ErrorKind::OutOfMemory.into()),
        Err(refused) => Ok(format!(in heap; "{refused}\n")?),
    }
}

// Writes the whole text. Where the output fails, a front of the text is written: `write_all` does not say so.
pub(crate) fn write<W: Write>(output: &mut W, text: &[u8]) -> io::Result<()>
    ensures written { OnOk result (Appends (W.contents output.old) (W.contents output.new) text.now) }
    ensures failed { OnErr result ((n : ℕ) × Appends (W.contents output.old) (W.contents output.new) (take n text.now)) }
{
    let mut left = text;
    for _ in 0..u64::MAX {
        if left.is_empty() {
            return Ok(());
        }
        match output.write(left) {
            Ok(0) => return Err(ErrorKind::WriteZero.into()),
            Ok(n) => left = &left[n..],
            Err(error) if error.kind() == ErrorKind::Interrupted => {}
            Err(error) => return Err(error),
        }
    }
    Err(ErrorKind::Interrupted.into())
}

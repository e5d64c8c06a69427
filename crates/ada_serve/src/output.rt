//! Writing all of a text to a writer that may take less than it is given.

ghost use Rattle.ada_serve.specs.Calls.{OnlyWrites};
ghost use Rattle.ada_serve.specs.Written.{Writes};

use crate::serve::ServeFault;
use crate::streams::ByteWriter;

/// Writes all the bytes.
///
/// # Errors
/// Where a write failed or took nothing. What the writer took before stays written.
pub fn write_all<W: ByteWriter>(out: &mut W, bytes: &[u8]) -> Result<(), ServeFault>
    ensures text { Writes (W.contents out.old) (W.contents out.new) bytes.now result }
    ensures calls { OnlyWrites W.writes out.old out.new result }
{
    let mut rest = bytes;
    while !rest.is_empty() {
        match out.write(rest) {
            Ok(count) => {
                if count == 0 {
                    return Err(ServeFault::WriteFailed);
                }
                rest = rest.split_at(count).1;
            }
            Err(_) => return Err(ServeFault::WriteFailed),
        }
    }
    Ok(())
}

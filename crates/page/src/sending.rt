// Writing bytes at once.
ghost use Rattle.std.specs.Prelude.{◌≡◌, [], IsOk};

use crate::{SystemError, Tries};
use std::io;
use std::io::ErrorKind;

// Writes bytes, by one write where the system takes them all at once.
pub fn sent<P: Print>(to: &P, bytes: &[u8]) -> Result<(), SystemError>
    ensures nothing { bytes.now ≡ [] → IsOk result }
{
    let mut rest = bytes;
    let mut tries = Tries::new();
    // The system takes as much at a time as it will, so how many turns there are is not known before.
    while !rest.is_empty() {
        match to.write_some(rest) {
            Ok(0) => return Err(io::Error::from(ErrorKind::WriteZero).into()),
            Ok(put) => rest = &rest[put..],
            Err(error) => tries.again(error)?,
        }
    }
    Ok(())
}

// The file in the working directory from which a program reads what it is asked.
#![tactic(auto)]

ghost use Rattle.std.specs.Prelude.{◌≢◌, IfErr};
ghost use Rattle.std.specs.IoError.{error_kind};
ghost use Rattle.std.specs.declared.io.ErrorKind.TheVariants as ErrorKind;

use std::alloc::Alloc;
use std::io::ErrorKind;
use std::rt::Files;
use std::{fs, io};

/// The bytes of a file; a missing file counts as empty.
pub fn read_or_empty<R: Files + Alloc>(rt: &R, path: &str) -> io::Result<Vec<u8, R::A>>
    ensures { IfErr result (λ error. error_kind error ≢ ErrorKind.NotFound) }
{
    match fs::read(rt, path) {
        Err(error) if error.kind() == ErrorKind::NotFound => Ok(Vec::new(rt.alloc())),
        read => read,
    }
}

#[cfg(test)]
mod tests {
    use super::*;

    #[test]
    fn file_is_read(rt: HostRuntime) -> io::Result<()> {
        fs::write(&rt, "INPUTS-TEST.TXT", b"two\nlines")?;
        let bytes = read_or_empty(&rt, "INPUTS-TEST.TXT")?;
        fs::remove_file(&rt, "INPUTS-TEST.TXT")?;
        assert!(rt; bytes.as_slice() == b"two\nlines".as_slice());
        Ok(())
    }

    #[test]
    fn missing_file_counts_as_empty(rt: HostRuntime) -> io::Result<()> {
        let bytes = read_or_empty(&rt, "NO-SUCH-FILE.TXT")?;
        assert!(rt; bytes.is_empty());
        Ok(())
    }
}

// The frame of a file: all before its records.
ghost use Rattle.file.specs.Frame.{kind_of, length_told};
ghost use Rattle.std.specs.Prelude.{◌≡◌};

use crate::fault::{FileFault, FileKind};

/// Tells the kind of a file.
pub fn kind_of(file: &[u8]) -> Result<FileKind, FileFault>
    ensures { result ≡ kind_of file.now }
{
    if file.is_empty() || file[0] != 1 {
        return Err(FileFault::Version);
    }
    if !length_told(file) {
        return Err(FileFault::Length);
    }
    FileKind::try_from(file[3])
}

// Whether bytes 1 and 2 tell how many bytes follow them, and that is 2 to 11,202.
fn length_told(file: &[u8]) -> bool
    ensures { result ≡ length_told file.now }
{
    if file.len() < 3 {
        return false;
    }
    let told = usize::from(u16::from_be_bytes([file[1], file[2]]));
    2 <= told && told <= 11_202 && told + 3 == file.len()
}

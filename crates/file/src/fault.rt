// Why a file is refused: a fault of the file, of a record in it, and in that the sheet's own refusal.
ghost use Rattle.file.specs.Faults.{fault_number, fault_place};
ghost use Rattle.file.specs.Frame.{kind_numbered, KindsTold};
ghost use Rattle.file.specs.Kinds.{kind_number, kind_text};
ghost use Rattle.file.specs.declared.fault.FileFault.TheVariants.{Record, Sheet};
ghost use Rattle.std.specs.Prelude.{◌≡◌, Some};

use refusal::Refusal;
use std::fmt;

/// The kinds of weight that a file can hold.
#[derive(Clone, Copy, PartialEq, Eq, Debug)]
pub enum FileKind {
    /// scores
    Score = 1,
    /// costs
    Cost = 2,
    /// marks over scores
    Mark = 3,
}

impl FileKind {
    /// The number that stands for the kind in byte 3 of a file.
    pub fn number(self) -> u8
        ensures value { result ≡ kind_number self }
        ensures told { KindsTold }
    {
        self as u8
    }
}

// By the number in byte 3 of a file.
impl TryFrom<u8> for FileKind {
    type Error = FileFault;

    ghost try_from_gives = { λ number r. r ≡ kind_numbered number };

    fn try_from(number: u8) -> Result<FileKind, FileFault> {
        for kind in [FileKind::Score, FileKind::Cost, FileKind::Mark] {
            if number == kind.number() {
                return Ok(kind);
            }
        }
        Err(FileFault::Kind)
    }
}

impl fmt::Display for FileKind {
    ghost output = { λ kind. Some (kind_text kind) };

    fn fmt<W: fmt::Write>(&self, f: &mut fmt::Formatter<W>) -> fmt::Result {
        f.write_str(match self {
            FileKind::Score => "score",
            FileKind::Cost => "cost",
            FileKind::Mark => "mark over score",
        })
    }
}

/// A put that was refused: the number of its record from 0, the place of the byte at fault, and the sheet's refusal.
#[derive(Clone, Copy, PartialEq, Eq, Debug)]
pub struct RecordFault {
    pub record: usize,
    pub place: usize,
    pub refusal: Refusal,
}

/// Why a file is refused.
#[derive(Clone, Copy, PartialEq, Eq, Debug)]
pub enum FileFault {
    /// the version is missing or not 1
    Version,
    /// the length is missing, not 2 to 11,202 or not that of the bytes that follow, or the last record is a part
    Length,
    /// the kind is not 1 to 3, or not the reader's
    Kind,
    /// the sheet could not be opened, or a run was given fewer turns than calls
    Sheet(Refusal),
    /// a record could not be put on the sheet
    Record(RecordFault),
}

impl FileFault {
    /// The number of the refusal.
    pub fn number(self) -> u8
        ensures { result ≡ fault_number self }
    {
        match self {
            FileFault::Version => 11,
            FileFault::Length => 12,
            FileFault::Kind => 13,
            FileFault::Sheet(refusal) => refusal.number(),
            FileFault::Record(fault) => fault.refusal.number(),
        }
    }

    /// The place of the first byte of the field at fault.
    pub fn place(self) -> usize
        ensures { result ≡ fault_place self }
    {
        match self {
            FileFault::Version => 0,
            FileFault::Length => 1,
            FileFault::Kind => 3,
            FileFault::Sheet(Refusal::WordCount) => 4,
            FileFault::Sheet(_) => 0,
            FileFault::Record(fault) => fault.place,
        }
    }
}

impl From<Refusal> for FileFault {
    ghost from_gives = { λ e r. r ≡ Sheet e };

    fn from(refusal: Refusal) -> FileFault {
        FileFault::Sheet(refusal)
    }
}

impl From<RecordFault> for FileFault {
    ghost from_gives = { λ e r. r ≡ Record e };

    fn from(fault: RecordFault) -> FileFault {
        FileFault::Record(fault)
    }
}

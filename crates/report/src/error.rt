// Why a report cannot be made.
ghost use Rattle.std.specs.Prelude.{◌≡◌, Some};
ghost use Rattle.report.specs.declared.error.ReportError.TheVariants.{Memory, Wide};
ghost use Rattle.report.specs.Message.{message};

use columns::WriteRefusal;
use std::alloc::AllocError;
use std::error::Error;
use std::fmt;

// Want of memory, or a number that is wider than its field.
#[derive(Clone, Copy, PartialEq, Eq, Debug)]
pub enum ReportError {
    Memory,
    Wide,
}

impl From<AllocError> for ReportError {
    ghost from_gives = { λ e r. r ≡ Memory };

    fn from(_error: AllocError) -> ReportError {
        ReportError::Memory
    }
}

// A line has room for its columns, so what cannot be written is too wide.
impl From<WriteRefusal> for ReportError {
    ghost from_gives = { λ e r. r ≡ Wide };

    fn from(_refusal: WriteRefusal) -> ReportError {
        Self::Wide
    }
}

impl fmt::Display for ReportError {
    ghost output = { λ e. Some (message e) };

    fn fmt<W: fmt::Write>(&self, f: &mut fmt::Formatter<W>) -> fmt::Result {
        match self {
            ReportError::Memory => write!(f, "there is not enough memory"),
            ReportError::Wide => write!(f, "a number is wider than its field"),
        }
    }
}

impl Error for ReportError {}

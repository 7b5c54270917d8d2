// Why a job has no result.
ghost use Rattle.std.specs.Prelude.{◌≡◌};
ghost use Rattle.jobs.specs.Faults.{job_number, job_place, job_layer};
ghost use Rattle.jobs.specs.declared.fault.JobFault.TheVariants.{Sheet, Book, Check, Search, Memory};

use book_file::BookFault;
use faults::{Layer, SheetFault};
use play::{CheckFault, SearchFault};
use std::alloc::AllocError;
use thiserror::Error;

// Each inner fault is kept whole.
#[derive(Clone, Copy, PartialEq, Eq, Debug, Error)]
pub enum JobFault {
    // the text is no sheet
    #[error(transparent)]
    Sheet(SheetFault),
    // the file is no book
    #[error(transparent)]
    Book(BookFault),
    // the book is not checked
    #[error(transparent)]
    Check(CheckFault),
    // no book is found
    #[error(transparent)]
    Search(SearchFault),
    // for the job's tables; this is no numbered refusal
    #[error("not enough memory")]
    Memory,
}

// By hand, since a clause names the fault that `?` makes.
impl From<SheetFault> for JobFault {
    ghost from_gives = { λ s j. j ≡ Sheet s };

    fn from(inner: SheetFault) -> JobFault {
        Self::Sheet(inner)
    }
}

impl From<BookFault> for JobFault {
    ghost from_gives = { λ b j. j ≡ Book b };

    fn from(inner: BookFault) -> JobFault {
        Self::Book(inner)
    }
}

impl From<CheckFault> for JobFault {
    ghost from_gives = { λ c j. j ≡ Check c };

    fn from(inner: CheckFault) -> JobFault {
        Self::Check(inner)
    }
}

impl From<SearchFault> for JobFault {
    ghost from_gives = { λ s j. j ≡ Search s };

    fn from(inner: SearchFault) -> JobFault {
        Self::Search(inner)
    }
}

impl From<AllocError> for JobFault {
    ghost from_gives = { λ _ j. j ≡ Memory };

    fn from(_fault: AllocError) -> JobFault {
        Self::Memory
    }
}

impl JobFault {
    // The refusal's number, if it is a numbered one.
    pub fn number(self) -> Option<u8>
        ensures { result ≡ job_number self }
    {
        match self {
            JobFault::Sheet(fault) => Some(fault.number()),
            JobFault::Book(fault) => Some(fault.number()),
            JobFault::Check(fault) => Some(fault.number()),
            JobFault::Search(fault) => Some(fault.number()),
            JobFault::Memory => None,
        }
    }

    // Where in the text or in the file, if one of them was refused.
    pub fn place(self) -> Option<usize>
        ensures { result ≡ job_place self }
    {
        match self {
            JobFault::Sheet(fault) => Some(fault.place()),
            JobFault::Book(fault) => Some(fault.place()),
            JobFault::Check(_) | JobFault::Search(_) | JobFault::Memory => None,
        }
    }

    pub fn layer(self) -> Option<Layer>
        ensures { result ≡ job_layer self }
    {
        match self {
            JobFault::Sheet(fault) => Some(fault.layer()),
            JobFault::Book(fault) => Some(fault.layer()),
            JobFault::Check(_) | JobFault::Search(_) | JobFault::Memory => None,
        }
    }
}

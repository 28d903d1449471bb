// Why a line is not done, as it is answered.
use refusals::Refusal;
use std::alloc::AllocError;
use std::num::ParseIntError;
use thiserror::Error;

#[derive(Debug, Drop, Error)]
pub enum Fault {
    #[error(transparent)]
    Refused(#[from] Refusal),
    // The book was refused.
    #[error("closed")]
    Closed,
    #[error("unread")]
    Unread,
    #[error(transparent)]
    Memory(#[from(alloc)] AllocError),
}

impl From<ParseIntError> for Fault {
    fn from(_error: ParseIntError) -> Fault {
        Fault::Unread
    }
}

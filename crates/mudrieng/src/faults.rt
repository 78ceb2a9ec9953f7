// What keeps a job from being sawn.
use std::alloc::AllocError;
use std::io;
use thiserror::Error;
use ways::Refusal;

#[derive(Debug, Drop, Error)]
pub enum Fault {
    #[error(transparent)]
    Refused(#[from] Refusal),
    #[error("there is not enough memory")]
    Memory(#[from(alloc)] AllocError),
    #[error("the job can't be read: {0}")]
    Input(#[from] io::Error),
}

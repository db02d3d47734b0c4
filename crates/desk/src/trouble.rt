// What can go wrong in a program.
use std::alloc::AllocError;
use std::io;
use thiserror::Error;

/// The program has said what went wrong, and ends with status 1. No `ExitCode`: `Error: Failed` is printed last.
#[derive(Debug, Drop)]
pub struct Failed;

/// Why a program stops, as a person reads it. It is no `anyhow::Error`, which keeps 120 bytes of a message: a path alone
/// can be longer.
#[derive(Debug, Drop, Error)]
pub enum Trouble {
    #[error("{0}")]
    Said(String),
    #[error("out of memory")]
    Memory(#[from(alloc)] AllocError),
    #[error(transparent)]
    Output(#[from] io::Error),
}

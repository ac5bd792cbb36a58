//! The tokens of a program text.
ghost use Rattle.std.specs.Prelude.{◌<◌, ◌^◌, length};

use crate::bench::Bench;
use aql_lexer::lex;
use span_token::{Failure, OutOfMemory};
use std::alloc::Global;

/// A text is taken apart into its tokens; one that has none at some byte comes to that byte.
#[derive(Drop)]
pub(crate) struct Lexing<'t> {
    pub alloc: Global,
    pub text: &'t str,
}

impl Bench for Lexing<'_> {
    fn round(&mut self) -> Result<u64, OutOfMemory> {
        if self.text.len() >= 1 << 32 {
            return Ok(0);
        }
        match lex(self.alloc, self.text) {
            Ok(toks) => Ok(toks.len() as u64),
            Err(Failure::Fault(fault)) => Ok(u64::from(fault.place)),
            Err(Failure::OutOfMemory) => Err(OutOfMemory),
        }
    }
}

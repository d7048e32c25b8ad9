//! The arguments of the process.

use std::alloc::{Alloc, Global};
use std::env::{self, FillError};
use std::rt::Env;

/// The environment of a process, with the arguments after the program's name.
#[derive(Drop)]
struct ArgumentsAfterName<'a> {
    rt: &'a HostRuntime,
}

impl Env for ArgumentsAfterName<'_> {
    fn arg(&self, index: usize, buffer: &mut [u8]) -> Result<usize, FillError> {
        match index.checked_add(1) {
            Some(index) => self.rt.arg(index, buffer),
            None => Err(FillError::NotPresent),
        }
    }

    fn var(&self, name: &str, buffer: &mut [u8]) -> Result<usize, FillError> {
        self.rt.var(name, buffer)
    }

    fn var_at(&self, index: usize, buffer: &mut [u8]) -> Result<usize, FillError> {
        self.rt.var_at(index, buffer)
    }
}

impl Alloc for ArgumentsAfterName<'_> {
    type A = Global;

    fn alloc(&self) -> Global {
        self.rt.alloc()
    }
}

/// Returns the arguments after the program's name, which itself needn't be UTF-8. Returns None if
/// an argument isn't UTF-8, or if an allocation fails.
pub fn arguments(rt: &HostRuntime) -> Option<Vec<String>> {
    env::args(&ArgumentsAfterName { rt })
        .ok()?
        .collect(rt.alloc())
        .ok()
}

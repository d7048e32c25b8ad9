//! Files by their names.

ghost use Rattle.std.specs.Prelude.{◌≡◌, ◌∷◌, [], ℕ, List, Option, IfOk, None};
ghost use Rattle.link_capture_reader.specs.Files.{Opening, opening, then_opened};

use super::devices::Source;
use super::sources::ReadSource;
use std::fs::File;
use std::io::ErrorKind;

/// Opens files by their names.
///
/// A trait of our own, so that contracts can speak of the contents of files by their names, and
/// tests can give files.
pub trait FileSystem {
    /// An open file.
    type File: Source + Drop;

    /// The bytes of the file with a name, if they are known.
    ghost contents: { Self → List ℕ → Option (List ℕ) };

    /// The calls of `open` in order, each with its name and outcome, if they are known.
    ghost openings: { Self → Option (List (Opening Self.File)) };

    /// Opens a file, to be read from its first byte on. The contents of all files stay.
    ///
    /// # Errors
    ///
    /// The kind of the error, if the file can't be opened.
    fn open(&mut self, name: &str) -> Result<Self::File, ErrorKind>
        ensures bytes { IfOk result (λ file. Self.File.to_come file ≡ contents self.old name.now) }
        ensures opening { openings self.new ≡ then_opened (openings self.old) (opening name.now result ∷ []) }
        ensures contents { contents self.new ≡ contents self.old };
}

/// The file system of the process. The contents of its files aren't known to the proofs, nor which
/// were opened, since it keeps no list of them.
#[derive(Drop)]
pub struct HostFiles<'a> {
    rt: &'a HostRuntime,
}

impl<'a> HostFiles<'a> {
    /// Returns the file system of the process.
    pub fn new(rt: &'a HostRuntime) -> HostFiles<'a> {
        HostFiles { rt }
    }
}

impl FileSystem for HostFiles<'_> {
    type File = ReadSource<File>;

    ghost contents = { λ _ _. None };

    ghost openings = { λ _. None };

    fn open(&mut self, name: &str) -> Result<ReadSource<File>, ErrorKind> {
        match File::open(self.rt, name) {
            Ok(file) => Ok(ReadSource::new(file)),
            Err(error) => Err(error.kind()),
        }
    }
}

//! The names of the files that line markers mention.

ghost use Rattle.std.specs.Prelude.{◌≡◌, [], IfOk};
ghost use Rattle.line_marks.specs.Naming.{Mentions, names_of};

use joern_io::{Bytes, List};
use name_table::Names;
use std::alloc::{AllocError, Global};

/// The names of files, in the order of their first mention.
#[derive(Drop)]
pub(crate) struct FileNames {
    alloc: Global,
    names: Names,
}

impl FileNames {
    /// No names.
    pub(crate) fn new(alloc: Global) -> FileNames
        ensures { names_of result ≡ [] }
    {
        FileNames {
            alloc,
            names: Names::new(alloc),
        }
    }

    /// The position of a name, which is added at the end if it is new.
    pub(crate) fn mention(&mut self, name: &[u8]) -> Result<u32, AllocError>
        ensures { IfOk result (λ position.
            Mentions (names_of self.old) (names_of self.new) name.now position) }
    {
        match self.names.number_of(name) {
            Some(number) => Ok(number),
            None => self.names.add(self.alloc, name),
        }
    }

    /// The names, each in memory of its own.
    pub(crate) fn to_files(&self) -> Result<List<Bytes>, AllocError>
        ensures { IfOk result (λ files. files ≡ names_of self.now) }
    {
        let mut files = List::new(self.alloc);
        for number in 0..self.names.len() {
            let name = Vec::from_slice(self.alloc, self.names.text(number))?;
            files.push(Bytes::of(name))?;
        }
        Ok(files)
    }
}

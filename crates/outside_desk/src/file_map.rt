// Files in memory, seen as a finite map.
ghost use Rattle.std.specs.Prelude.{◌≡◌, map as map_list, IfOk, OnOk, OnErr, IsErrOf};
ghost use Rattle.std.specs.String.{string_bytes};
ghost use Rattle.outside_desk.specs.Listing.{Lists, AreInOrder, names_in};
ghost use Rattle.std.specs.Option.{option_copied};
ghost use Rattle.std.specs.FinMap as map;

use crate::DeskFault;
use crate::names::{Names, name_below};
use std::alloc::{AllocError, Global};
use std::collections::BTreeMap;
use std::marker::Model;

/// Files by their paths, with the allocator that they are kept in.
#[derive(Drop)]
pub struct FileMap {
    alloc: Global,
    entries: BTreeMap<String, Vec<u8>>,
}

impl Model for FileMap {
    ghost use Rattle.outside_desk.specs.Files.{Files, files_code};
    ghost use Rattle.outside_desk.specs.FileMap.{files_of};

    ghost Value = { Files };

    ghost coded = { files_code };

    ghost view = { λ a. files_of a.entries };
}

impl FileMap {
    pub fn new(alloc: Global) -> FileMap
        ensures { result ≡ map.empty }
    {
        FileMap {
            alloc,
            entries: BTreeMap::new(alloc),
        }
    }

    pub fn get(&self, path: &str) -> Option<&[u8]>
        ensures { option_copied result ≡ map.get self.now path.now }
    {
        match self.entries.get(path) {
            Some(bytes) => Some(bytes.as_slice()),
            None => None,
        }
    }

    pub fn put(&mut self, path: &str, bytes: &[u8]) -> Result<(), AllocError>
        ensures ok { OnOk result (self.new ≡ map.insert self.old path.now bytes.now) }
        ensures err { OnErr result (self.new ≡ self.old) }
    {
        let path = String::from_str(self.alloc, path)?;
        let bytes = Vec::from_slice(self.alloc, bytes)?;
        self.entries.insert(path, bytes)?;
        Ok(())
    }

    /// The names in a folder, or `Missing` where it has none.
    pub fn list(&self, folder: &str) -> Result<Vec<String>, DeskFault>
        ensures lists { Lists self.now folder.now result }
        ensures order { IfOk result (λ names. AreInOrder (map_list string_bytes names.items)) }
        ensures no_fault { IsErrOf result DeskFault.Failed → ⊥ }
    {
        let names = self.names_below(folder)?;
        if names.is_empty() {
            return Err(DeskFault::Missing);
        }
        Ok(names)
    }

    /// The names in a folder.
    fn names_below(&self, folder: &str) -> Result<Vec<String>, AllocError>
        ensures names { IfOk result (λ names. map_list string_bytes names.items
            ≡ names_in self.now folder.now) }
        ensures order { IfOk result (λ names. AreInOrder (map_list string_bytes names.items)) }
    {
        let mut names = Names::new(self.alloc);
        for path in self.entries.keys() {
            if let Some(name) = name_below(folder, path) {
                names.add(name)?;
            }
        }
        names.into_list()
    }
}

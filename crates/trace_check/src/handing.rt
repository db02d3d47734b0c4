// The directory that schedules are handed out into.
use super::pairs::Pair;
use std::alloc::{AllocError, AllocFailed, Global};
use std::collections::BTreeMap;
use std::fs::File;
use std::io::Write;
use std::{fs, io};
use thiserror::Error;

/// Why schedules cannot be handed out.
#[derive(Debug, Drop, Error)]
pub enum Unhanded<'a> {
    #[error("the schedules '{first}' and '{second}' have one file name, and --hand-out would write both to one file")]
    SameName { first: &'a str, second: &'a str },
    #[error("{path}: the directory cannot be made: {error}")]
    NoDirectory { path: &'a str, error: io::Error },
    #[error("{0}: stands there already, and --hand-out overwrites nothing")]
    Taken(String),
    #[error("{path}: cannot be written: {error}")]
    Unwritten { path: String, error: io::Error },
    #[error("out of memory")]
    Memory(#[from(alloc)] AllocError),
}

/// A directory that takes the schedules that pass, each under the name of the file that it was read from.
#[derive(Clone, Copy)]
pub struct Directory<'a> {
    path: &'a str,
}

// Declines pairs of which two have schedules with one file name.
fn name_all<'a>(heap: Global, pairs: &'a [Pair]) -> Result<(), Unhanded<'a>> {
    let mut named = BTreeMap::new(heap);
    for pair in pairs {
        let second = pair.schedule.as_str();
        if let Some(name) = pair.file_name() {
            if let Some(first) = named.insert(name, second)? {
                return Err(Unhanded::SameName { first, second });
            }
        }
    }
    Ok(())
}

impl<'a> Directory<'a> {
    /// The directory of that path, which is made where there is none. It has to have a free name for each of the schedules.
    pub(crate) fn open(
        rt: &HostRuntime,
        path: &'a str,
        pairs: &'a [Pair],
    ) -> Result<Directory<'a>, Unhanded<'a>> {
        name_all(rt.alloc(), pairs)?;
        if let Err(error) = fs::create_dir_all(rt, path) {
            return Err(Unhanded::NoDirectory { path, error });
        }
        let directory = Directory { path };
        directory.find_free(rt, pairs)?;
        Ok(directory)
    }

    // The path of a file in the directory.
    fn file(self, heap: Global, name: &str) -> Result<String, AllocError> {
        let path = self.path.trim_end_matches('/');
        format!(in heap; "{path}/{name}")
    }

    // Declines pairs where the file of a schedule is there already.
    fn find_free(self, rt: &HostRuntime, pairs: &'a [Pair]) -> Result<(), Unhanded<'a>> {
        for name in pairs.iter().filter_map(|pair| pair.file_name()) {
            let file = self.file(rt.alloc(), name)?;
            if fs::symlink_metadata(rt, file.as_str()).is_ok() {
                return Err(Unhanded::Taken(file));
            }
        }
        Ok(())
    }

    /// Writes the text of a schedule to a new file of that name. Where that fails, no part of it stays.
    pub(crate) fn put(self, rt: &HostRuntime, name: &str, text: &str) -> Result<(), Unhanded<'a>> {
        let path = self.file(rt.alloc(), name)?;
        let mut file = match File::create_new(rt, path.as_str()) {
            Ok(file) => file,
            Err(error) => return Err(Unhanded::Unwritten { path, error }),
        };
        if let Err(error) = file.write_all(text.as_bytes()) {
            let _ = fs::remove_file(rt, path.as_str());
            return Err(Unhanded::Unwritten { path, error });
        }
        Ok(())
    }
}

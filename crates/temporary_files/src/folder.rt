//! The folder of the files.

use ref_queue::Ran;
use ref_share::Gate;
use std::{env, fs, io};

/// A folder with a file for each number, with the handle of the system by which they are made and removed.
#[derive(Drop)]
pub struct Folder<'a> {
    files: &'a HostRuntime,
    path: String,
}

impl<'a> Folder<'a> {
    /// A new folder, of the first name that is free.
    pub fn new(files: &'a HostRuntime) -> io::Result<Self> {
        let temporary = env::temp_dir(files)?;
        for number in 0..u64::MAX {
            let path = format!(in files.alloc();
                "{}/temporary_files-{number}",
                temporary.display()
            )?;
            match fs::create_dir(files, path.as_str()) {
                Ok(()) => return Ok(Folder { files, path }),
                Err(fault) if fault.kind() == io::ErrorKind::AlreadyExists => {}
                Err(fault) => return Err(fault),
            }
        }
        Err(io::Error::from(io::ErrorKind::AlreadyExists))
    }

    /// Writes the file of this number.
    pub fn write(&self, number: u64) -> io::Result<()> {
        fs::write(self.files, self.path_of(number)?.as_str(), b"in use")
    }

    /// Removes the folder, which must be empty.
    pub fn end(self) -> io::Result<()> {
        fs::remove_dir(self.files, self.path.as_str())
    }

    fn path_of(&self, number: u64) -> io::Result<String> {
        Ok(format!(in self.files.alloc(); "{}/{number}", self.path)?)
    }
}

/// The file of each task that is run is removed. One that can't be is told by the end of the folder, which isn't empty.
impl Gate for Folder<'_> {
    fn before(&self, _number: u64) {}

    fn after(&self, ran: Ran) {
        if let Ok(path) = self.path_of(ran.number) {
            let _ = fs::remove_file(self.files, path.as_str());
        }
    }
}

//! The files of a folder.

use crate::answer::{KINDS, Kind};
use std::{fs, io};

/// Which files tell of a text.
#[derive(Clone, Copy)]
pub struct Told {
    /// One has what it prints.
    pub prints: bool,
    /// One has its fault.
    pub fails: bool,
}

/// The names of a folder's files, in their order.
#[derive(Drop)]
pub struct Folder {
    files: Vec<String>,
}

impl Folder {
    /// The folder that the program runs in.
    pub fn here(rt: &HostRuntime) -> io::Result<Folder> {
        let mut files = Vec::new(rt.alloc());
        for entry in fs::read_dir(rt, ".")? {
            let entry = entry?;
            files.push(String::from_str(rt.alloc(), entry.file_name())?)?;
        }
        files.sort()?;
        Ok(Folder { files })
    }

    /// The names, in their order.
    pub fn files(&self) -> &[String] {
        self.files.as_slice()
    }

    /// Whether there is a file of this name with this ending.
    pub fn has(&self, name: &str, ending: &str) -> bool {
        for file in &self.files {
            if file.rsplit_once('.') == Some((name, ending)) {
                return true;
            }
        }
        false
    }

    /// Whether there is a text of this name.
    pub fn has_text(&self, name: &str) -> bool {
        KINDS.iter().any(|kind| self.has(name, kind.text()))
    }

    /// What files tell of a text; `None` where none does, or another text has its name. Of a log that is cut off both
    /// files tell, and of any other text just one.
    pub fn told(&self, kind: Kind, name: &str) -> Option<Told> {
        let told = Told {
            prints: self.has(name, kind.printed()),
            fails: self.has(name, "err"),
        };
        let may_be_both = matches!(kind, Kind::Log);
        let texts = KINDS.iter().filter(|kind| self.has(name, kind.text()));
        if texts.count() != 1 || !(told.prints || told.fails) {
            return None;
        }
        if told.prints && told.fails && !may_be_both {
            return None;
        }
        Some(told)
    }
}

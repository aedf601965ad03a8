//! A file that is watched for what another process does to it.
use lz_slot::{Format, read_header};
use std::fs::File;
use std::os::unix::fs::{FileExt, MetadataExt};

/// A file that stays open, and how long it was.
#[derive(Drop)]
pub struct Watched {
    file: File,
    length: u64,
}

impl Watched {
    /// Watches the file, where the system tells its length.
    pub fn new(file: File) -> Option<Watched> {
        let length = file.metadata().ok()?.len();
        Some(Watched { file, length })
    }

    /// The format of the file, where its head tells one.
    pub fn format(&self) -> Option<Format> {
        let mut head = [0; 16];
        self.file.read_exact_at(&mut head, 0).ok()?;
        Some(read_header(&head, self.length).ok()?.format)
    }

    /// What was done to the file, where it isn't as it was.
    pub fn change(&self) -> Option<&'static str> {
        let facts = self.file.metadata().ok()?;
        if facts.nlink() == 0 {
            return Some("the file was deleted, or another one put in its place");
        }
        if facts.len() != self.length {
            return Some("the file's length was changed");
        }
        None
    }
}

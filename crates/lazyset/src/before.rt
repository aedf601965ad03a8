//! What stands at a path where a file is to be made.
use crate::fault::Fault;
use crate::files::no_file;
use lz_disk::{Disk, FileDisk};
use lz_slot::{OPEN_GATE, read_head};

/// What stands there before.
#[derive(Clone, Copy)]
pub enum Before {
    /// No bytes, or the zero with which a making begins.
    Nothing,
    /// So many bytes, which are those of a set, perhaps but for the first one: then its making was cut off, or its head was spoiled.
    Set(u64),
    /// So many others.
    Others(u64),
}

impl Before {
    /// What stands on this disk. Where it can't be read nothing is known of it, and what is to be done there will fail as well.
    pub fn on(disk: &mut FileDisk) -> Before {
        let Ok(size) = disk.size() else {
            return Before::Nothing;
        };
        if size == 0 || size == 1 && begins_with_zero(disk) {
            return Before::Nothing;
        }
        let mut head = [0; 16];
        if size < 16 || disk.read(0, &mut head).is_err() {
            return Before::Others(size);
        }
        head[0] = OPEN_GATE;
        match read_head(&head) {
            Ok(_) => Before::Set(size),
            Err(_) => Before::Others(size),
        }
    }

    /// It may be lost, for a command that takes no other file's bytes away.
    pub fn see_free<R: Eprint>(self, rt: &R, path: &str) -> Result<(), Fault> {
        match self {
            Before::Nothing | Before::Set(_) => Ok(()),
            Before::Others(1) => Err(no_file(
                rt,
                path,
                "its 1 byte is no set's: give another name, or move it away",
            )),
            Before::Others(size) => Err(no_file(
                rt,
                path,
                format_args!("its {size} bytes are no set's: give another name, or move it away"),
            )),
        }
    }
}

fn begins_with_zero(disk: &mut FileDisk) -> bool {
    let mut first = [OPEN_GATE];
    disk.read(0, &mut first).is_ok() && first[0] == 0
}

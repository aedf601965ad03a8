//! A disk of which it is said how much was read or written.
ghost use Rattle.std.specs.Prelude.{◌≡◌};

use crate::share::Share;
use lz_disk::{DeviceFault, Disk};
use std::time::Clock;

/// A disk with a share. What is said of it as a device is said of the disk.
#[derive(Drop)]
pub struct ShownDisk<'a, 'b, R: Eprint + Clock, D: Disk> {
    disk: D,
    share: Share<'a, 'b, R>,
}

impl<'a, 'b, R: Eprint + Clock, D: Disk> ShownDisk<'a, 'b, R, D> {
    pub fn new(disk: D, share: Share<'a, 'b, R>) -> ShownDisk<'a, 'b, R, D>
        ensures { result.disk ≡ disk }
    {
        ShownDisk { disk, share }
    }

    /// The work is done: the disk as it is.
    pub fn end(self) -> D
        ensures { result ≡ self.entry.disk }
    {
        let ShownDisk { disk, share } = self;
        let mut share = share;
        share.end();
        disk
    }
}

impl<R: Eprint + Clock, D: Disk> Disk for ShownDisk<'_, '_, R, D> {
    ghost device = { λ shown. D.device shown.disk };

    ghost timely = { λ shown honest. D.timely shown.disk honest };

    fn size(&mut self) -> Result<u64, DeviceFault> {
        self.disk.size()
    }

    fn read(&mut self, at: u64, buffer: &mut [u8]) -> Result<(), DeviceFault> {
        self.share.add(buffer.len());
        self.disk.read(at, buffer)
    }

    fn write(&mut self, at: u64, bytes: &[u8]) -> Result<(), DeviceFault> {
        self.share.add(bytes.len());
        self.disk.write(at, bytes)
    }

    fn sync(&mut self) -> Result<(), DeviceFault> {
        self.disk.sync()
    }
}

//! What a run says of the set that it has opened.
use crate::long_lists::LongLists;
use crate::texts::ARE_TEXTS;
use lazyset_set_commands::Heed;

/// Says of the set of this file, in so many buckets of which its format allows so many, that its keys are texts or its lists long,
/// where they are.
#[derive(Clone, Copy)]
pub struct Told<'a, 'b, R: Eprint> {
    pub rt: &'a R,
    pub file: &'b str,
    pub buckets: usize,
    pub most_buckets: usize,
}

impl<R: Eprint> Heed for Told<'_, '_, R> {
    fn found(&self, members: usize, mark: bool) {
        let file = self.file;
        if mark {
            let _ = eprintln!(self.rt; "lazyset: {file}: {ARE_TEXTS}");
        }
        if let Some(lists) = LongLists::of(members, self.buckets, self.most_buckets) {
            let _ = eprintln!(self.rt; "lazyset: {file}: {lists}");
        }
    }
}

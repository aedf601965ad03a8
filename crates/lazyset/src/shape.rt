//! How a set is served, as its log keeps it: without the secret of its texts.
use lz_resp::Naming;
use lz_serve::{Language, Serving};

/// How a set is served.
#[derive(Clone, Copy)]
pub struct Shape {
    pub buckets: usize,
    pub passes: usize,
    /// How many loops serve: none where each pass has a thread.
    pub loops: usize,
    /// Frames are spoken, alone or beside lines.
    pub has_frames: bool,
    /// How many marks its file has: one where its keys are texts, and one of their secret.
    pub marks: usize,
}

impl Shape {
    /// That of a set which isn't served yet.
    pub const UNSERVED: Shape = Shape {
        buckets: 0,
        passes: 0,
        loops: 0,
        has_frames: false,
        marks: 0,
    };

    pub fn of(serving: &Serving) -> Shape {
        let loops = match &serving.loops {
            Some(loops) => loops.count_for(serving.passes),
            None => 0,
        };
        let naming = match serving.loops.map(|loops| loops.language) {
            Some(Language::Frames(naming) | Language::Either(naming)) => Some(naming),
            Some(Language::Lines) | None => None,
        };
        let marks = match naming {
            Some(Naming::Texts(secret)) => 1 + usize::from(secret.is_some()),
            Some(Naming::Rooms) | None => 0,
        };
        Shape {
            buckets: serving.buckets,
            passes: serving.passes,
            loops,
            has_frames: naming.is_some(),
            marks,
        }
    }
}

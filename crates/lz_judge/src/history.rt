//! A history, and the points that order its calls.
ghost use Rattle.std.specs.Prelude.{◌≡◌, reverse};

use lz_slot::HistoryEvent;
use std::marker::Model;

/// A call's place in the order of calls.
#[derive(Clone, Copy, Debug, PartialEq, Eq)]
pub struct Point {
    pub call: u64,
    pub place: u64,
}

/// What was seen of a service, and the points that were given to its calls. Contracts see both newest first.
#[derive(Drop)]
pub struct History {
    marks: Vec<HistoryEvent>,
    points: Vec<Point>,
}

impl Model for History {
    ghost use Rattle.std.specs.Prelude.{reverse};
    ghost use Rattle.lz_judge.specs.Records.{Record, IsLawful, ArePlaces};

    ghost Value = { Record };

    ghost view = { λ h. record { marks = reverse h.marks.items; points = reverse h.points.items } };

    ghost invariant = { λ h. IsLawful (reverse h.marks.items) × ArePlaces (reverse h.points.items) };
}

impl History {
    ghost use Rattle.lz_judge.specs.Records.{IsLawful, ArePlaces};

    // A history of these marks and points, both in the order of the text.
    pub(crate) fn new(marks: Vec<HistoryEvent>, points: Vec<Point>) -> History
        requires lawful { IsLawful (reverse marks.items) }
        requires places { ArePlaces (reverse points.items) }
        ensures marks { result.marks ≡ reverse marks.items }
        ensures points { result.points ≡ reverse points.items }
    {
        History { marks, points }
    }

    /// The marks in the order of the text.
    pub fn marks(&self) -> &[HistoryEvent]
        ensures marks { self.now.marks ≡ reverse result.now }
        ensures lawful { IsLawful self.now.marks }
    {
        self.marks.as_slice()
    }

    /// The points in the order of the text.
    pub fn points(&self) -> &[Point]
        ensures points { self.now.points ≡ reverse result.now }
        ensures places { ArePlaces self.now.points }
    {
        self.points.as_slice()
    }
}

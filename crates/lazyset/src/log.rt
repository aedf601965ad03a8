//! What the service says on standard error, and when it is to end.
mod observing;

use crate::at_path::has_waiting;
use crate::backlog::Backlog;
use crate::gauge::Gauge;
use crate::identity::run_of;
use crate::latencies::Latencies;
use crate::level::Level;
use crate::lines::Lines;
use crate::long_lists::LongLists;
use crate::many::Many;
use crate::moored::Moored;
use crate::rate::Rate;
use crate::ready::Ready;
use crate::seldom::Seldom;
use crate::shape::Shape;
use crate::tally::Tally;
use crate::texts::ARE_TEXTS;
use crate::watched::Watched;
use crate::way_out::WayOut;
use lazyset_set_commands::{Heed, Status};
use lz_disk::Cause;
use lz_serve::{Clearings, Lease, Leased, Listener, Observer, close_listener};
use lz_slot::Format;
use std::fmt;
use std::sync::atomic::{AtomicBool, AtomicUsize, Ordering};
use std::sync::{OnceLock, Wait};
use std::time::{Clock, Duration};

/// An observer by which a service is asked to end.
pub trait Stoppable: Leased + Heed {
    /// The service is to end: no further command is begun.
    fn stop(&self);

    /// Whether it may be told now what a client has changed: not once the lease is lost.
    fn may_tell(&self) -> bool;

    /// It doesn't hear by this option whether it is to end: no thread can be made for that.
    fn deaf(&self, option: &str);
}

/// What the system around a service wants and tells.
#[derive(Drop)]
pub struct Surroundings {
    /// What stands before each line.
    pub lines: Lines,
    /// What is said where it can't listen.
    pub way_out: WayOut,
    /// Who wants to know that the service is ready.
    pub ready: Ready,
    pub backlog: Backlog,
}

/// Says of the service of a file what an operator wants to know, and whether it is to end. Where that can't be written nothing changes.
#[derive(Drop)]
pub struct Log<'a, R: Eprint> {
    rt: &'a R,
    file: &'a str,
    /// The file that is served, where it can be watched.
    watched: Option<Watched>,
    /// Its format; where that can't be read, one whose limits each format allows.
    format: Format,
    around: Surroundings,
    /// When the opening began, where the clock tells.
    began: Option<Duration>,
    /// The number of this service among all.
    run: usize,
    listener: OnceLock<Listener>,
    shape: OnceLock<Shape>,
    gauge: Gauge,
    tally: Tally,
    rate: Rate,
    latencies: Latencies,
    /// How many connections it serves at once, how many there are, and how many there were.
    places: AtomicUsize,
    guests: AtomicUsize,
    sessions: AtomicUsize,
    crowded: Seldom,
    unaccepted: Seldom,
    was_changed: AtomicBool,
    /// A loop has no thread.
    lacks_loop: AtomicBool,
    stops: AtomicBool,
    /// By what something is sent to a client.
    lease: Lease<Moored>,
    clearings: Clearings,
    /// How many marks its file has, where keys are forgotten. (What the loops share can't stand here: the kit's borrow checker takes no type of several
    /// lifetimes in a call whose signature names `'static`, and a secret has one.)
    marks: Option<&'a AtomicUsize>,
}

impl<'a, R> Log<'a, R>
where
    R: Eprint + Clock + Wait + AllocGlobal,
{
    /// The log of a service of this file, which is about to be opened.
    pub fn new(
        rt: &'a R,
        file: &'a str,
        watched: Option<Watched>,
        around: Surroundings,
        marks: Option<&'a AtomicUsize>,
        lease: Lease<Moored>,
    ) -> Log<'a, R> {
        let format = watched
            .as_ref()
            .and_then(Watched::format)
            .unwrap_or(Format::Two);
        let log = Log {
            rt,
            file,
            watched,
            format,
            around,
            began: rt.monotonic().ok(),
            run: run_of(rt),
            listener: OnceLock::new(),
            shape: OnceLock::new(),
            gauge: Gauge::new(),
            tally: Tally::new(),
            rate: Rate::new(),
            latencies: Latencies::new(),
            places: AtomicUsize::new(0),
            guests: AtomicUsize::new(0),
            sessions: AtomicUsize::new(0),
            crowded: Seldom::new(),
            unaccepted: Seldom::new(),
            was_changed: AtomicBool::new(false),
            lacks_loop: AtomicBool::new(false),
            stops: AtomicBool::new(false),
            lease,
            clearings: Clearings::new(),
            marks,
        };
        log.say(Level::Info, "opening");
        log
    }

    fn say<W: fmt::Display + Drop>(&self, level: Level, words: W) {
        self.around.lines.say(self.rt, self.file, level, words);
    }

    fn write<W: fmt::Display + Drop>(&self, level: Level, line: W) {
        self.around.lines.write(self.rt, level, line);
    }

    /// Says why the file failed, where that is known.
    pub fn say_cause(&self, cause: Option<Cause>) {
        if let Some(cause) = cause {
            let file = self.file;
            self.write(Level::Error, format_args!("lazyset: {file}: {cause}"));
        }
    }

    /// The service has ended, if it has begun.
    pub fn ended(&self) {
        if self.places.load(Ordering::SeqCst) == 0 {
            return;
        }
        let sessions = self.sessions.load(Ordering::SeqCst);
        let members = self.members();
        let slots = Many::new(self.gauge.slots(), "slot", "slots");
        let is_asked = self.stops() && !self.has_failed();
        let how = if is_asked { "stopped" } else { "ended" };
        self.say(
            Level::Notice,
            format_args!("{how}: sessions {sessions}, members {members} of {slots}"),
        );
    }

    /// The status of the service, where that is this one but for what the log knows: one that lacks a loop, or has lost its lease, has failed.
    pub fn status(&self, status: Status) -> Status {
        match status {
            Status::Done if self.has_failed() => Status::Failed,
            status => status,
        }
    }

    // Whether it lacks a loop, or has lost its lease.
    fn has_failed(&self) -> bool {
        self.lacks_loop.load(Ordering::SeqCst) || self.lease.is_lost()
    }

    // Where the lease is lost the service is to end, which is said once.
    fn see_lease(&self) {
        if self.lease.is_lost()
            && let Some(loss) = self.lease.take_loss(self.rt)
        {
            self.begin_end();
            self.say(
                Level::Error,
                format_args!(
                    "the lease is lost: {loss}: nothing is answered until the file is opened again"
                ),
            );
        }
    }

    // No further command is begun, and no connection is taken. Whether that is news.
    fn begin_end(&self) -> bool {
        if self.stops.swap(true, Ordering::SeqCst) {
            return false;
        }
        if let Some(listener) = self.listener.get() {
            close_listener(listener);
        }
        true
    }

    // The second that it is.
    fn second(&self) -> u64 {
        match self.rt.monotonic() {
            Ok(now) => now.as_secs(),
            Err(_) => 0,
        }
    }

    // How long it is since the opening began, where the clock tells.
    fn age(&self) -> Option<Duration> {
        let began = self.began?;
        let now = self.rt.monotonic().ok()?;
        Some(now.saturating_sub(began))
    }

    // Says how long the opening took.
    fn tell_opened(&self) {
        if let Some(took) = self.age() {
            let (seconds, tenths) = (took.as_secs(), took.subsec_millis() / 100);
            self.say(Level::Info, format_args!("opened in {seconds}.{tenths} s"));
        }
    }

    // Says that connections wait, where all places are taken.
    fn tell_crowd(&self) {
        if self.guests.load(Ordering::SeqCst) < self.places.load(Ordering::SeqCst) {
            return;
        }
        let second = self.second();
        if !self.crowded.may(second) {
            return;
        }
        let Some(listener) = self.listener.get() else {
            return;
        };
        let places = self.places.load(Ordering::SeqCst);
        match self.waiting_at(listener) {
            Some(0) => self.crowded.again(second),
            Some(waiting) => {
                let waiting = Many::new(waiting as usize, "connection waits", "connections wait");
                self.say_taken(places, waiting);
            }
            None => self.say_taken(places, "further connections wait"),
        }
    }

    // Says that all places are taken, and who waits.
    fn say_taken<W: fmt::Display + Drop>(&self, places: usize, who: W) {
        if places == 1 {
            self.say(
                Level::Warning,
                format_args!("the only place is taken, {who}"),
            );
        } else {
            self.say(
                Level::Warning,
                format_args!("all {places} places are taken, {who}"),
            );
        }
    }

    // How many connections wait there, where the system tells it: of a path no more than whether some do. Its table of all connections
    // takes milliseconds to read, and is read only then.
    fn waiting_at(&self, listener: &Listener) -> Option<u64> {
        let some_wait = match listener {
            Listener::Port(listener) => has_waiting(listener),
            Listener::Path(listener) => has_waiting(listener),
        };
        if !some_wait {
            return Some(0);
        }
        self.around.backlog.at(self.rt.alloc(), listener.port()?)
    }

    // How it is served.
    fn shape(&self) -> Shape {
        match self.shape.get() {
            Some(shape) => *shape,
            None => Shape::UNSERVED,
        }
    }

    // How many members it has, without its marks.
    fn members(&self) -> usize {
        self.gauge.members().saturating_sub(self.marks())
    }

    // How many marks it has.
    fn marks(&self) -> usize {
        match self.marks {
            Some(count) => count.load(Ordering::SeqCst),
            None => self.shape().marks,
        }
    }

    // Says that lists are long, where they are.
    fn tell_lists(&self, members: usize, buckets: usize) {
        if let Some(lists) = LongLists::of(members, buckets, self.format.most_buckets()) {
            self.say(Level::Warning, lists);
        }
    }
}

impl<'a, R> Stoppable for Log<'a, R>
where
    R: Eprint + Clock + Wait + AllocGlobal,
{
    fn stop(&self) {
        if self.begin_end() {
            self.say(Level::Notice, "asked to stop");
        }
    }

    fn may_tell(&self) -> bool {
        self.lease.leave(self.rt).is_some()
    }

    fn deaf(&self, option: &str) {
        self.say(
            Level::Error,
            format_args!("no thread can be made for {option}: it can't be asked to stop so"),
        );
    }
}

impl<'a, R> Heed for Log<'a, R>
where
    R: Eprint + Clock + Wait + AllocGlobal,
{
    // Where frames are spoken the command line has said what the keys are.
    fn found(&self, _members: usize, mark: bool) {
        if mark && !self.shape().has_frames {
            self.say(Level::Warning, ARE_TEXTS);
        }
    }
}

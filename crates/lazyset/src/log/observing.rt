//! What a service tells its log as it goes on.
use crate::identity::process;
use crate::level::Level;
use crate::log::{Log, Stoppable};
use crate::many::Many;
use crate::moored::Moored;
use crate::shape::Shape;
use crate::watched::Watched;
use lazyset_arguments::{MAJOR, MINOR};
use lazyset_set_commands::format_number;
use lz_proto::Reply;
use lz_resp::{Cleared, Figures};
use lz_serve::{Clearings, Lack, Lease, Leased, Listener, Observer, Serving, Verb, close_listener};
use std::io;
use std::sync::Wait;
use std::sync::atomic::Ordering;
use std::time::{Clock, Duration};

// The bytes of a slot in its file.
const SLOT_BYTES: usize = 16;

impl<'a, R> Observer for Log<'a, R>
where
    R: Eprint + Clock + Wait + AllocGlobal,
{
    ghost use Rattle.std.specs.Prelude.{⊤};

    ghost asked = { ⊤ };

    fn serving(&self, serving: Serving, listener: &Listener) {
        if let Ok(same) = listener.try_clone() {
            let _ = self.listener.set(self.rt, same);
        }
        let places = match serving.loops {
            Some(loops) => loops.connections,
            None => serving.passes,
        };
        self.places.store(places, Ordering::SeqCst);
        let _ = self.shape.set(self.rt, Shape::of(&serving));
        self.gauge.begin(serving.slots, serving.members);
        self.tell_opened();
        let serving = Serving {
            members: self.members(),
            ..serving
        };
        self.say(Level::Info, format_args!("serving: {serving}"));
        self.tell_lists(serving.members, serving.buckets);
        self.around.ready.tell();
        // It may have been asked before it had a listener.
        if self.stops() {
            close_listener(listener);
        }
    }

    fn no_port(&self, error: io::Error) {
        let (file, way_out) = (self.file, self.around.way_out);
        self.write(
            Level::Error,
            format_args!("lazyset: serve {file}: noport: {error}{way_out}"),
        );
    }

    fn unserved(&self, why: Lack) {
        self.say(Level::Error, format_args!("it serves nobody: {why}"));
    }

    fn threadless(&self) {
        if self.shape().loops > 0 {
            self.lacks_loop.store(true, Ordering::SeqCst);
            if self.begin_end() {
                self.say(
                    Level::Error,
                    "no thread can be made for a loop: the service ends",
                );
            }
            return;
        }
        self.say(
            Level::Warning,
            format_args!(
                "no thread can be made: the one that starts the others serves in its place"
            ),
        );
    }

    fn accepted(&self) {
        self.sessions.fetch_add(1, Ordering::SeqCst);
        self.guests.fetch_add(1, Ordering::SeqCst);
        if let Some(change) = self.watched.as_ref().and_then(Watched::change)
            && !self.was_changed.swap(true, Ordering::SeqCst)
        {
            self.say(
                Level::Error,
                format_args!("{change}: no further change is answered"),
            );
        }
        self.tell_crowd();
    }

    fn crowded(&self) {
        self.tell_crowd();
    }

    fn unaccepted(&self, error: io::Error) {
        if !self.stops() && self.unaccepted.may(self.second()) {
            self.say(
                Level::Warning,
                format_args!("no connection can be accepted: {error}"),
            );
        }
    }

    fn parted(&self) {
        self.guests.fetch_sub(1, Ordering::SeqCst);
    }

    fn answered(&self, verb: Verb, reply: Reply, members: Option<usize>) {
        self.tally.count(verb, reply);
        match (verb, reply) {
            (Verb::Add, Reply::Yes) => {
                if let Some(share) = self.gauge.came(members) {
                    let members = Many::new(self.members(), "member", "members");
                    let slots = Many::new(self.gauge.slots(), "slot", "slots");
                    self.say(
                        Level::Warning,
                        format_args!("{share} % full: {members} in {slots}"),
                    );
                }
            }
            (Verb::Remove, Reply::Yes) => self.gauge.left(members),
            (_, Reply::Full) => {
                if self.gauge.fills() {
                    self.say(Level::Warning, "full: no slot was free for a new key");
                }
            }
            _ => {}
        }
    }

    fn took(&self, time: Duration) {
        self.latencies.count(time);
    }

    fn figures(&self) -> Figures {
        let shape = self.shape();
        let age = self.age().unwrap_or(Duration::ZERO);
        let (answered, slots) = (self.tally.all(), self.gauge.slots());
        Figures {
            major: MAJOR,
            minor: MINOR,
            process: process(),
            run: self.run,
            seconds: age.as_secs() as usize,
            stoppable: matches!(self.listener.get(), Some(Listener::Path(_))),
            clients: self.guests.load(Ordering::SeqCst),
            most_clients: self.places.load(Ordering::SeqCst),
            sessions: self.sessions.load(Ordering::SeqCst),
            answered,
            rate: self.rate.at(age, answered),
            median_us: self.latencies.within(50),
            p99_us: self.latencies.within(99),
            adds: self.tally.adds(),
            removes: self.tally.removes(),
            lookups: self.tally.lookups(),
            full: self.tally.full(),
            format: format_number(self.format) as usize,
            slots,
            used_bytes: self.gauge.members().saturating_mul(SLOT_BYTES),
            most_bytes: slots.saturating_mul(SLOT_BYTES),
            members: self.members(),
            marks: self.marks(),
            buckets: shape.buckets,
            passes: shape.passes,
            loops: shape.loops,
            cleared: Cleared::Busy,
        }
    }

    fn clearings(&self) -> &Clearings {
        &self.clearings
    }

    fn shut_down(&self, _figures: &Figures) {
        self.stop();
    }

    fn halted(&self) {
        self.say(
            Level::Error,
            "the device failed: nothing is answered until the file is opened again",
        );
    }

    fn stops(&self) -> bool {
        self.see_lease();
        self.stops.load(Ordering::SeqCst)
    }
}

impl<'a, R> Leased for Log<'a, R>
where
    R: Eprint + Clock + Wait + AllocGlobal,
{
    type Tether = Moored;

    fn lease(&self) -> &Lease<Moored> {
        &self.lease
    }
}

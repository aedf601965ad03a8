//! How the clients of a crowd part.
ghost use Rattle.lz_serve.specs.Clients.{Keeps};

use crate::clock::millis;
use crate::crowd::Crowd;
use crate::observer::Observer;
use crate::stream::Stream;
use std::time::Duration;

impl<S: Stream> Crowd<S> {
    /// Closes the connections on which nothing came or went for longer than so, and those of clients that don't leave, ten times in a
    /// second.
    pub fn close_idle(&mut self, idle: Option<Duration>)
        ensures { Keeps self.old self.new }
    {
        if !self.clock.ticks() {
            return;
        }
        let idle = idle.map(millis);
        for token in 0..self.places.len() {
            if self.is_idle(token, idle) {
                self.close(token);
            }
        }
    }

    // Whether the client of this token is to be closed, since it was idle for more milliseconds than so.
    fn is_idle(&self, token: usize, idle: Option<u64>) -> bool {
        let now = self.clock.now();
        let queued = self.queue.has(token);
        self.places
            .get(token)
            .is_some_and(|place| place.is_idle(now, idle, queued))
    }

    /// Ends each session, once what is unsent is sent.
    pub fn part_all<O: Observer>(&mut self, observer: &O, buffer: &mut [u8])
        ensures { Keeps self.old self.new }
    {
        for token in 0..self.places.len() {
            self.part(token, observer, buffer);
        }
    }

    // Ends a session, once what is unsent is sent.
    fn part<O: Observer>(&mut self, token: usize, observer: &O, buffer: &mut [u8])
        ensures { Keeps self.old self.new }
    {
        let Some(place) = self.places.get_mut(token) else {
            return;
        };
        place.part();
        self.tend(token, observer, buffer);
    }

    /// Tends to those that wait for their turn, which none has any more.
    pub fn tend_queue<O: Observer>(&mut self, observer: &O, buffer: &mut [u8])
        ensures { Keeps self.old self.new }
    {
        for _ in 0..self.queue.len() {
            let Some(token) = self.queue.pop() else {
                return;
            };
            self.tend(token, observer, buffer);
        }
    }

    /// Closes each connection.
    pub fn close_all(&mut self)
        ensures { Keeps self.old self.new }
    {
        for token in 0..self.places.len() {
            self.close(token);
        }
    }
}

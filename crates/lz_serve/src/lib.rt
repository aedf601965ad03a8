//! A set that is served over the network.
//!
//! A client that goes away, sends half a line or stops reading ends its own session alone. There are two shapes of a service:
//!
//! - A thread for each pass, which serves one connection after the other: a session of lines and replies (`serve`).
//! - Loops with many connections each (`serve_loops`). A connection's conversation is a value (`Conversation`), a `Client` is one on its
//!   connection (`Stream`), a `Crowd` has them all, and a `Poller` tells which can be read or written (`Sockets` the system's). A request
//!   that a pass is answering is a value too (`Asking`): one thread plays many on up to a sync, and then one sync for all (`serve_loop`).
#![tactic(auto)]

mod answering;
mod asking;
mod clearing;
mod client;
mod clock;
mod conversation;
mod crowd;
mod desk;
mod exchanges;
mod forgetting;
mod free_pass;
mod gathering;
mod given;
mod guest;
mod language;
pub mod laws;
mod lease;
mod limited;
mod line;
mod listed;
mod listener;
mod loads;
mod loops;
mod moments;
mod observer;
mod options;
mod outlet;
mod pacing;
mod pass_thread;
mod place;
mod poller;
mod queue;
mod reader;
mod refusing;
mod replies;
mod seated;
mod server;
mod serving;
mod shares;
mod sight;
mod socket;
mod sockets;
mod stream;
mod telling;
mod turn;
mod workers;

pub use asking::{Asking, Granted};
pub use clearing::Clearings;
pub use client::{Client, Question};
pub use conversation::Conversation;
pub use crowd::Crowd;
pub use exchanges::Exchanges;
pub use forgetting::Forgetting;
pub use free_pass::FreePass;
pub use given::Given;
pub use language::Language;
pub use lease::{Held, Lease, Leave, Loss, Tether};
pub use line::Line;
pub use listed::Listed;
pub use listener::{Listener, close_listener};
pub use loops::serve_loops;
pub use observer::{Lack, Leased, Loops, Observer, Serving, Verb};
pub use options::{MOST_CONNECTIONS, MOST_THREADS, ServeOptions};
pub use pass_thread::serve_client;
pub use poller::{Poller, Ready};
pub use reader::{FrameReader, LineReader, Reader};
pub use seated::Seated;
pub use server::{Bounds, Served, none_served, serve};
pub use serving::serve_loop;
pub use sight::Sight;
pub use stream::{Received, Stream, Taken};
pub use turn::{Turn, Wording};

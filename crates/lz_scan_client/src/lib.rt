//! A client of a service that speaks Redis's protocol: it asks for the shape of the service's file, and scans all rooms, page by page.
#![tactic(auto)]

mod fault;
mod replies;
mod scanning;
mod shape;
mod told;

pub use fault::ScanFault;
pub use scanning::{ToldKeys, scan_rooms};
pub use shape::{Shape, ask_shape};

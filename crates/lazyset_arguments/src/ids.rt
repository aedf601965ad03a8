//! The names of those words of the commands that are asked for by name, and what some of them may be.

/// What stands last among a service's words that have places of their own.
pub const PASSES_ID: &str = "PASSES";

/// The options by which a service speaks one protocol alone.
pub const RESP_ID: &str = "resp";

pub const LINES_ID: &str = "lines";

/// The option by which it serves many connections.
pub const CONNECTIONS_ID: &str = "connections";

/// The option by which it takes any keys for numbers.
pub const NUMBERS_ID: &str = "numbers";

/// The option by which it is asked to stop.
pub const CONTROL_ID: &str = "control";

/// The option by which it listens at a path.
pub const SOCKET_ID: &str = "socket";

/// What stands in the place of a port then.
pub const NO_PORT: &[&str] = &["-"];

/// The option for the mode of both sockets.
pub const SOCKET_MODE_ID: &str = "socket-mode";

/// The option by which names and members are texts, and what marks an older file of theirs.
pub const TEXT_ID: &str = "text";

pub const ADOPT: &str = "adopt";

/// The option for the file of a secret.
pub const SECRET_ID: &str = "secret";

/// The option by which texts are forgotten, and the one for the number of epochs by which they are.
pub const FORGET_ID: &str = "forget";

pub const EPOCHS_ID: &str = "epochs";

/// The option by which it holds on to its file, as a lease.
pub const LEASE_ID: &str = "lease";

/// The option by which it waits for a file that another process has.
pub const STANDBY_ID: &str = "standby";

/// The option by which a file for which it has waited is written anew.
pub const REWRITE_ID: &str = "rewrite";

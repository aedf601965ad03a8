//! The words of the commands, as a table.
use crate::ids::{
    ADOPT, CONNECTIONS_ID, CONTROL_ID, EPOCHS_ID, FORGET_ID, LEASE_ID, LINES_ID, NUMBERS_ID,
    PASSES_ID, RESP_ID, REWRITE_ID, SECRET_ID, SOCKET_ID, SOCKET_MODE_ID, STANDBY_ID, TEXT_ID,
};
use crate::lease::{LEAST_LEASE, MOST_LEASE};
use crate::period::{FEWEST_EPOCHS, MOST_EPOCHS, MOST_SECONDS};
use crate::word::{Beside, Form, Word};
use lz_serve::{MOST_CONNECTIONS, MOST_THREADS};
use lz_slot::{MOST_BUCKETS, MOST_REHEARSED};

pub(crate) const FILE: Word = Word {
    id: "FILE",
    value_name: None,
    form: Form::Text,
    default: None,
    beside: Beside::Anything,
    help: "The slot file",
};

pub(crate) const OLD: Word = Word {
    id: "OLD",
    help: "The slot file whose keys are read; it is left as it is",
    ..FILE
};

pub(crate) const ADDRESS: Word = Word {
    id: "ADDRESS",
    help: "Where the service listens: PORT, HOST:PORT, or the path of its socket",
    ..FILE
};

pub(crate) const NEW: Word = Word {
    id: "NEW",
    help: "The slot file that is made",
    ..FILE
};

pub(crate) const HISTORY: Word = Word {
    help: "The history: the lines of a rehearsal, and `point I P` for call I",
    ..FILE
};

pub(crate) const OF: Word = Word {
    id: "of",
    value_name: Some("OLD"),
    form: Form::Text,
    default: None,
    beside: Beside::Anything,
    help: "A slot file from which this one was renewed: says after `good` whether both hold the same keys, `same`, or what is wrong, `flaw 8`, `flaw 9 I` or `flaw 10 I`",
};

pub(crate) const KEYS: Word = Word {
    id: "keys",
    value_name: None,
    form: Form::Flag,
    default: None,
    beside: Beside::Excludes("of"),
    help: "Prints the keys alone, one a line, in the order of their slots",
};

pub(crate) const LIST: Word = Word {
    id: "keys",
    value_name: None,
    form: Form::Flag,
    default: None,
    beside: Beside::Anything,
    help: "Makes a file that holds the keys of standard input, one a line",
};

pub(crate) const TEXTS_OF: Word = Word {
    id: TEXT_ID,
    value_name: Some("NAME"),
    form: Form::Text,
    default: None,
    beside: Beside::Needs("keys"),
    help: "Takes each line for a text, a member of the set NAME of a service with --text, and marks the file as one of texts",
};

pub(crate) const SLOTS: Word = Word {
    id: "SLOTS",
    value_name: None,
    form: Form::Number,
    default: None,
    beside: Beside::Anything,
    help: "How many keys the file has room for, 1 to 65536, or to 16777216 with format 3 or 4",
};

pub(crate) const COPIED_SLOTS: Word = Word {
    form: Form::LastNumber,
    help: "How many keys the file has room for; as many as the service's where it isn't given",
    ..SLOTS
};

pub(crate) const REHEARSED: Word = Word {
    id: "SLOTS",
    value_name: None,
    form: Form::Within(1, MOST_REHEARSED as i64),
    default: None,
    beside: Beside::Anything,
    help: "How many keys the set has room for, 1 to 64",
};

pub(crate) const FORMAT: Word = Word {
    id: "format",
    value_name: Some("F"),
    form: Form::Within(1, 4),
    default: Some("2"),
    beside: Beside::Anything,
    help: "The format of the file: 2, whose keys are in the rooms 0 to 15, 3, which is the same with more slots, 4, with as many, whose additions need one write and one sync of a device that keeps each byte old or new, or the older 1, whose keys are all in room 0",
};

pub(crate) const ROOMY_FORMAT: Word = Word {
    id: "format",
    value_name: Some("F"),
    form: Form::Within(2, 4),
    default: Some("2"),
    beside: Beside::Anything,
    help: "The format of the new file: 2, 3, which has more slots, or 4, with as many and one sync an addition",
};

pub(crate) const GROWN_FORMAT: Word = Word {
    id: "format",
    value_name: Some("F"),
    form: Form::Within(2, 4),
    default: None,
    beside: Beside::Anything,
    help: "The format of the new file: 2, 3, which has more slots, or 4, with as many and one sync an addition. Where none is named that of FILE, or, where it is 1 or has no room for so many slots, 2 up to 65536 slots and 4 above",
};

pub(crate) const COPIED_FORMAT: Word = Word {
    help: "The format of the new file: 2, 3, which has more slots, or 4, with as many and one sync an addition. Where none is named 2 up to 65536 slots and 4 above, and without SLOTS that of the service's file",
    ..GROWN_FORMAT
};

pub(crate) const REPLACE: Word = Word {
    id: "replace",
    value_name: None,
    form: Form::Flag,
    default: None,
    beside: Beside::Anything,
    help: "Takes the place of a set that stands at NEW, once the copy is whole",
};

pub(crate) const BUCKETS: Word = Word {
    id: "buckets",
    value_name: Some("B"),
    form: Form::Within(1, MOST_BUCKETS as i64),
    default: Some("1"),
    beside: Beside::Anything,
    help: "The number of hash buckets, 1 to 4096, or to 1048576 with format 3 or 4: choose about the number of members",
};

pub(crate) const SERVED_BUCKETS: Word = Word {
    default: None,
    help: "The number of hash buckets, 1 to 4096, or to 1048576 with format 3 or 4: choose about the number of members. Where it isn't given 1, and with --connections, or without PASSES, as many as the file has slots, or as its format allows",
    ..BUCKETS
};

pub(crate) const PORT: Word = Word {
    id: "PORT",
    value_name: None,
    form: Form::Port(0, 65_535),
    default: None,
    beside: Beside::Anything,
    help: "The port of 127.0.0.1, 7000 where it isn't given; 0 takes a free one, which is printed; - with --socket",
};

pub(crate) const PASSES: Word = Word {
    id: PASSES_ID,
    value_name: None,
    form: Form::Passes,
    default: None,
    beside: Beside::Anything,
    help: "How many commands are carried out at once, 1 to 64, or to 1024 with --connections; without it also how many connections are served, each by a thread. Further ones wait. Where it isn't given it is 1024, and what else isn't given is chosen",
};

pub(crate) const CONNECTIONS: Word = Word {
    id: CONNECTIONS_ID,
    value_name: Some("C"),
    form: Form::Within(1, MOST_CONNECTIONS as i64),
    default: None,
    beside: Beside::Anything,
    help: "Serves up to C connections at once, 1 to 10000, by a few threads, in place of a thread for each; without PASSES as many as descriptors allow unless given",
};

pub(crate) const LOOPS: Word = Word {
    id: "loops",
    value_name: Some("L"),
    form: Form::Within(1, MOST_THREADS as i64),
    default: None,
    beside: Beside::Serving(Some(CONNECTIONS_ID), &[]),
    help: "How many threads serve the connections, 1 to 64 and at most PASSES; 1 unless given",
};

pub(crate) const RESP: Word = Word {
    id: RESP_ID,
    value_name: None,
    form: Form::Flag,
    default: None,
    beside: Beside::Serving(Some(CONNECTIONS_ID), &[]),
    help: "Speaks the protocol of Redis (RESP2) in place of lines, so that its clients can be used; without PASSES both are spoken unless one is named",
};

pub(crate) const LINES: Word = Word {
    id: LINES_ID,
    value_name: None,
    form: Form::Flag,
    default: None,
    beside: Beside::Serving(
        None,
        &[
            RESP_ID, TEXT_ID, NUMBERS_ID, SECRET_ID, FORGET_ID, EPOCHS_ID,
        ],
    ),
    help: "Speaks lines alone",
};

pub(crate) const TEXT: Word = Word {
    id: TEXT_ID,
    value_name: Some("HOW"),
    form: Form::Choice(&[ADOPT]),
    default: None,
    beside: Beside::Serving(Some(RESP_ID), &[]),
    help: "Takes any bytes as names and members, whose SHA-256 is the key (docs/PROTOCOL.md); else a name is a room, and a member a number. An empty file is marked so, and one of numbers is refused, `othernumbers`. --text=adopt marks a file that release 1.16 or an older one served with --text",
};

pub(crate) const SECRET: Word = Word {
    id: SECRET_ID,
    value_name: Some("PATH"),
    form: Form::Text,
    default: None,
    beside: Beside::Needs(TEXT_ID),
    help: "Hashes the secret in this file before each text, so that nobody else can tell its key: 16 to 64 bytes, the last of them no zero, of a file that only its user can read. An empty file of a set is marked so; one of texts under another secret, or under none, is refused, `othersecret`. Frames alone are spoken then",
};

pub(crate) const SECRET_OF: Word = Word {
    help: "Hashes the secret in this file before each text, as a service with the same --secret does, and marks the file as one of this secret",
    ..SECRET
};

pub(crate) const FORGET: Word = Word {
    id: FORGET_ID,
    value_name: Some("SECONDS"),
    form: Form::Within(1, MOST_SECONDS as i64),
    default: None,
    beside: Beside::Needs(TEXT_ID),
    help: "Forgets each text SECONDS after its addition, 1 to 100000000, or up to an epoch later, which is SECONDS / (E - 1). Frames alone are spoken then",
};

pub(crate) const EPOCHS: Word = Word {
    id: EPOCHS_ID,
    value_name: Some("E"),
    form: Form::Within(FEWEST_EPOCHS as i64, MOST_EPOCHS as i64),
    default: None,
    beside: Beside::Needs(FORGET_ID),
    help: "By how many epochs it forgets, 2 to 12; 3 unless given. The more there are the sooner a text is forgotten after SECONDS, and the more an addition costs",
};

pub(crate) const NUMBERS: Word = Word {
    id: NUMBERS_ID,
    value_name: None,
    form: Form::Flag,
    default: None,
    beside: Beside::Serving(Some(RESP_ID), &[TEXT_ID, SECRET_ID, FORGET_ID, EPOCHS_ID]),
    help: "Takes keys for numbers though the file is marked as one of texts, which is refused without it, `othertext`",
};

pub(crate) const SESSIONS: Word = Word {
    id: "sessions",
    value_name: Some("N"),
    form: Form::Within(0, 65_535),
    default: Some("0"),
    beside: Beside::Anything,
    help: "Each thread that serves ends after N connections; 0 for no end",
};

pub(crate) const IDLE: Word = Word {
    id: "idle",
    value_name: Some("SECONDS"),
    form: Form::Within(0, 86_400),
    default: Some("0"),
    beside: Beside::Anything,
    help: "Closes a connection on which nothing was sent, or no reply taken, for so long; 0 for never",
};

pub(crate) const SOCKET: Word = Word {
    id: SOCKET_ID,
    value_name: Some("PATH"),
    form: Form::Text,
    default: None,
    beside: Beside::Anything,
    help: "Listens on a Unix socket at this path, for its owner alone unless --socket-mode is given, in place of a port; PORT is - then",
};

pub(crate) const CONTROL: Word = Word {
    id: CONTROL_ID,
    value_name: Some("PATH"),
    form: Form::Text,
    default: None,
    beside: Beside::Anything,
    help: "Makes a socket at this path, on which `lazyset stop PATH` asks the service to stop; without PASSES at FILE.control unless given",
};

pub(crate) const SOCKET_MODE: Word = Word {
    id: SOCKET_MODE_ID,
    value_name: Some("MODE"),
    form: Form::Text,
    default: None,
    beside: Beside::Anything,
    help: "Gives the sockets of --socket and --control this mode, in octal: 0660 lets their group in too. 0600, less the umask, unless given",
};

pub(crate) const UNTIL_EOF: Word = Word {
    id: "until-eof",
    value_name: None,
    form: Form::Flag,
    default: None,
    beside: Beside::Anything,
    help: "Stops, as `lazyset stop` asks, when standard input ends",
};

pub(crate) const STANDBY: Word = Word {
    id: STANDBY_ID,
    value_name: None,
    form: Form::Flag,
    default: None,
    beside: Beside::Needs(CONTROL_ID),
    help: "Waits where another process has the file, in place of `nofile`: once that has ended it opens the file and serves it. What stops a service ends the wait",
};

pub(crate) const REWRITE: Word = Word {
    id: REWRITE_ID,
    value_name: None,
    form: Form::Flag,
    default: None,
    beside: Beside::Needs(STANDBY_ID),
    help: "Writes the file anew before it opens it, so that the copies of a replicated volume agree. In format 4 it does so in place, and else by a new file that takes its name",
};

pub(crate) const LEASE: Word = Word {
    id: LEASE_ID,
    value_name: Some("MS"),
    form: Form::Within(LEAST_LEASE as i64, MOST_LEASE as i64),
    default: None,
    beside: Beside::Serving(Some(CONNECTIONS_ID), &[]),
    help: "Answers nothing unless a sync of the file that began less than MS milliseconds ago has succeeded, 100 to 60000: it makes one first. Where one fails or takes as long the service ends. For a file that another machine may take over",
};

pub(crate) const NO_LOCK: Word = Word {
    id: "no-lock",
    value_name: None,
    form: Form::Flag,
    default: None,
    beside: Beside::Anything,
    help: "Goes on where the file can't be locked, though its file system has locks: then see that nothing else opens it",
};

pub(crate) const SERVED_NO_LOCK: Word = Word {
    beside: Beside::Excludes(STANDBY_ID),
    ..NO_LOCK
};

pub(crate) const CONTROLLED: Word = Word {
    id: "PATH",
    value_name: None,
    form: Form::Text,
    default: None,
    beside: Beside::Anything,
    help: "The socket that the service was given by --control",
};

pub(crate) const ROOM: Word = Word {
    id: "ROOM",
    value_name: None,
    form: Form::Within(0, 15),
    default: None,
    beside: Beside::Anything,
    help: "The room, 0 to 15",
};

pub(crate) const WITHIN: Word = Word {
    id: "within",
    value_name: Some("SECONDS"),
    form: Form::Within(0, 86_400),
    default: Some("30"),
    beside: Beside::Anything,
    help: "How long it waits until the service's file and port are free",
};

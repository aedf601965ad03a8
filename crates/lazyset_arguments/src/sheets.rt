//! The commands, as a table.
use crate::word::Word;
use crate::words::{
    ADDRESS, BUCKETS, CONNECTIONS, CONTROL, CONTROLLED, COPIED_FORMAT, COPIED_SLOTS, EPOCHS, FILE,
    FORGET, FORMAT, GROWN_FORMAT, HISTORY, IDLE, KEYS, LEASE, LINES, LIST, LOOPS, NEW, NO_LOCK,
    NUMBERS, OF, OLD, PASSES, PORT, REHEARSED, REPLACE, RESP, REWRITE, ROOM, ROOMY_FORMAT, SECRET,
    SECRET_OF, SERVED_BUCKETS, SERVED_NO_LOCK, SESSIONS, SLOTS, SOCKET, SOCKET_MODE, STANDBY, TEXT,
    TEXTS_OF, UNTIL_EOF, WITHIN,
};

/// A command.
#[derive(Clone, Copy)]
pub struct Sheet {
    pub name: &'static str,
    pub about: &'static str,
    /// What its help says after the words.
    pub notes: &'static str,
    pub words: &'static [Word],
}

/// What the whole help says after the commands.
pub const STATUSES: &str =
    "Exit statuses: 0 done; 1 the device, a read, a write or the port failed, or out of memory; 2 the command line; 3 the file or the input was refused; 4 damaged, not the same, or judged wrong. Standard error says in words why.";

/// The words of a service.
pub(crate) const SERVICE: &[Word] = &[
    FILE,
    PORT,
    PASSES,
    CONNECTIONS,
    LOOPS,
    RESP,
    LINES,
    TEXT,
    SECRET,
    FORGET,
    EPOCHS,
    NUMBERS,
    SESSIONS,
    IDLE,
    SERVED_BUCKETS,
    SOCKET,
    CONTROL,
    SOCKET_MODE,
    UNTIL_EOF,
    STANDBY,
    REWRITE,
    LEASE,
    SERVED_NO_LOCK,
];

/// The commands, as the help lists them.
pub const SHEETS: [Sheet; 12] = [
    Sheet {
        name: "make",
        about: "Makes a file that holds the empty set, or the keys of standard input. It overwrites any file that isn't a set, unless that is longer",
        notes: "Prints `made SLOTS`, or `refused N`: 1 it is a set already, 2 bad number of slots, 3 the device failed, 4 the file is longer than the new one. A file that can't be had, or isn't a regular one, is `nofile`.\n\nWith --keys the file holds the keys of standard input, one a line, as `17` or `3:17`: what `check FILE --keys` prints. Where line L holds no key that the format has it prints `line L`, where its key stands in a line above `twice L`, and `refused 9 M S` where M keys have no room in S slots. Nothing is made then.\n\nWith --keys --text NAME each line is a text of 512 bytes at most, a member of the set NAME for `serve --text`; one that stands there twice counts once, and the file's mark takes a slot (format 1 has none). With --secret PATH the keys are those of `serve --text --secret PATH`, and a second mark takes a slot; where the secret can't be had it prints `nosecret`, and nothing is made.\n\nExample: lazyset make f 1000",
        words: &[FILE, SLOTS, FORMAT, LIST, TEXTS_OF, SECRET_OF],
    },
    Sheet {
        name: "renew",
        about: "Makes a file that holds the keys of another one, with room for more or fewer. It overwrites as make does",
        notes: "Prints `renewed M`, `refused old N` with what `run` would say of OLD, `refused new N` with what `make` would say of NEW, or `refused 9 M S` where M keys have no room in S slots.\n\nExample: lazyset renew f g 2000",
        words: &[OLD, NEW, SLOTS, ROOMY_FORMAT],
    },
    Sheet {
        name: "grow",
        about: "Moves the keys of a file into a new one, with room for more or fewer, which takes its place",
        notes: "Prints `grown M`, `refused old N` with what `run` would say of FILE, `refused new N` with what `make` would say of the new file, or `refused 9 M S` where M keys have no room in S slots. FILE is then as it was, but perhaps after `refused new 3`, where it may be the new file, whole.\n\nThe new file is made beside FILE, as FILE.grow, compared with it, and renamed; what a growth left there that was cut off is taken away first, and anything else is `nofile`. A crash at any moment leaves FILE as it was or grown, and never less: run it again.\n\nExample: lazyset grow f 2000",
        words: &[FILE, SLOTS, GROWN_FORMAT],
    },
    Sheet {
        name: "copy",
        about: "Makes a file that holds the keys of a running service, which speaks Redis's protocol",
        notes: "ADDRESS is a port of this machine, HOST:PORT, or the path of a socket; the service speaks Redis's protocol, by release 1.17 or a later one. Prints `copied M`, `noread` where the connection failed, ended, or was silent for a minute, `noreply` where a reply is no page of keys, `refused N` with what `make` would say of NEW, or `refused 9 M S` where M keys or more have no room in S slots. Nothing is made then. An address where nobody listens is `nofile`, and so is a NEW that isn't empty and is no set's. Without SLOTS the service is asked for its slots and its format.\n\nWith --replace the copy is made beside NEW, as NEW.copy, and renamed: a crash at any moment leaves NEW as it was or the copy, whole.\n\nEach key is in it that was a member all the while, and none that was no member at any moment of it.\n\nExample: lazyset copy 7000 g, and the next day lazyset copy 7000 g --replace",
        words: &[ADDRESS, NEW, COPIED_SLOTS, COPIED_FORMAT, REPLACE],
    },
    Sheet {
        name: "run",
        about: "Answers the lines of standard input, each with one line",
        notes: "Lines: `add K`, `remove K`, `has K`, `quit`. K is a number, as in `add 17`, or a room from 0 to 15 and a number, as in `add 3:17`.\n\nReplies: yes, no, full (no slot is free), oldfile (a file of format 1 has room 0 alone), halted (the device failed), worn (2^61 commands were carried out), bad 1 (a line of more than 64 bytes), bad 2 (no such command), bad 3 (not a number), bad 4 (too large), bad 5 (the input ended within a line), bad 6 (invalid room number).\n\nA file may be `refused N`: 1 not made, 2 another format, 3 wrong length, 4 bad number of slots, 5 I slot I holds no key, 6 I J slots I and J hold one key, 7 the device failed, 8 out of memory.\n\nIt locks the file: where another process has it, it says `nofile`.\n\nExample: echo 'add 5' | lazyset run f",
        words: &[FILE, BUCKETS, NO_LOCK],
    },
    Sheet {
        name: "serve",
        about: "Answers many connections at once: their lines, as `run` does, or the frames of Redis's protocol",
        notes: "Without PASSES it chooses what isn't given: port 7000, 1024 commands at once, as many connections as descriptors allow, 10000 at most, as many buckets as the file has slots, or as its format allows, and a control socket at FILE.control. A connection whose first byte is `*` speaks Redis's protocol then, and any other lines. With PASSES nothing but the buckets is chosen, and lines are spoken unless --resp is given.\n\nPrints `listening PORT`, or `listening PATH`, when clients can connect, `refused N` as `run` does, `noport`, `othertext`, `othernumbers` or `othersecret`, or `nosecret` where a secret can't be had. Standard error is its log.\n\nIt locks the file: where another process has it, it says `nofile`, or waits by --standby.\n\nExample: lazyset serve f\n\nFor Redis's clients, whose members are any bytes: lazyset serve f 7000 --resp --text\n\nFor this user's programs alone: lazyset serve f --socket f.socket\n\nBy a thread for each of 8 connections, in lines: lazyset serve f 7000 8 --buckets 1024 --idle 600\n\nBy a few threads for thousands of them: lazyset serve f 7000 1024 --connections 5000",
        words: SERVICE,
    },
    Sheet {
        name: "stop",
        about: "Stops a service in order: it begins no further command, and answers those that are under way",
        notes: "Ends once the service's file and port are free. Where that takes more than SECONDS the service goes on stopping, and the status is 1.\n\nExample: lazyset stop f.control, where the service was started with --control f.control",
        words: &[CONTROLLED, WITHIN],
    },
    Sheet {
        name: "clear",
        about: "Has a running service remove the keys of a room, while it serves",
        notes: "Prints `cleared N`, once N keys were removed and each removal is durable. Keys that are added to the room meanwhile may be removed or stay. A service clears one room at a time: another is told so, and the status is 1. One of texts clears none, nor does one without --connections.\n\nExample: lazyset clear f.control 3, where the service was started with --control f.control",
        words: &[CONTROLLED, ROOM],
    },
    Sheet {
        name: "info",
        about: "Counts what a file holds: `format F`, `slots N`, `members M`, `free F`, and `good` or `damaged`",
        notes: "A head that can't be read is `refused N`, as by `run`. It writes nothing.\n\nExample: lazyset info f",
        words: &[FILE],
    },
    Sheet {
        name: "check",
        about: "Says what each open slot of a file holds, and `good` or `damaged`",
        notes: "Prints `slot I key K`, `slot I badkey` or `slot J twice I` for each open slot. A head that can't be read is `refused N`, as by `run`. It writes nothing.\n\nWith --keys it prints the keys alone, one a line, and after those of a damaged file `damaged`.\n\nExample: lazyset check f",
        words: &[FILE, OF, KEYS],
    },
    Sheet {
        name: "judge",
        about: "Judges a history by the points of its calls: `good`, or the first flaw",
        notes: "Prints `good`, `flaw N I`, or `line L` for the first line that doesn't read.\n\nExample: lazyset judge h, where h has the lines call 1 1 add 9, answer 1 yes, stop, open 9, point 1 5",
        words: &[HISTORY],
    },
    Sheet {
        name: "rehearse",
        about: "Plays the script of standard input on a new set in memory: calls, failures, stops, crashes and opens",
        notes: "Example: printf 'call 1 add 9\\nuntil 1 WriteOpen\\ncrash a5\\nopen\\n' | lazyset rehearse 2",
        words: &[REHEARSED, BUCKETS, FORMAT],
    },
];

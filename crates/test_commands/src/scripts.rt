//! What clients send, and what they are to be told.
use std::alloc::Global;
use std::io::Write;

/// How many keys a client has for its own.
pub const KEYS: usize = 5;

/// A client's text, what a set replies to it, and which of its keys are members then.
#[derive(Drop)]
pub struct Script {
    pub text: Vec<u8>,
    pub replies: Vec<u8>,
    pub members: [bool; KEYS],
}

// The reply that tells whether something was so.
fn answer(is_so: bool) -> &'static [u8] {
    if is_so { b"yes\n" } else { b"no\n" }
}

// One more line: what is done with which key.
fn add_line(script: &mut Script, first: u64, choice: u64, index: usize) -> Option<()> {
    let key = first.wrapping_add(index as u64);
    let member = script.members.get_mut(index)?;
    let was = *member;
    match choice {
        0 | 1 => {
            writeln!(script.text, "add {key}").ok()?;
            *member = true;
            script.replies.extend_from_slice(answer(!was)).ok()
        }
        2 => {
            writeln!(script.text, "remove {key}").ok()?;
            *member = false;
            script.replies.extend_from_slice(answer(was)).ok()
        }
        3 => {
            writeln!(script.text, "has {key}").ok()?;
            script.replies.extend_from_slice(answer(was)).ok()
        }
        _ => {
            writeln!(script.text, "look {key}").ok()?;
            script.replies.extend_from_slice(b"bad 2\n").ok()
        }
    }
}

/// The script of so many lines of the client of this number.
pub fn script_of(alloc: Global, client: u64, lines: u64) -> Option<Script> {
    let mut script = Script {
        text: Vec::new(alloc),
        replies: Vec::new(alloc),
        members: [false; KEYS],
    };
    let first = client.wrapping_mul(10);
    for line in 0..lines {
        let number = client
            .wrapping_mul(31)
            .wrapping_add(line.wrapping_mul(line))
            .wrapping_add(line / 3);
        add_line(&mut script, first, number % 5, (number % 7 % 5) as usize)?;
    }
    Some(script)
}

//! Tells systemd that the service is ready (sd_notify(3)).
ghost use Rattle.std.specs.Prelude.{◌≤◌, IfSome};

use libc::net::{_SS_SIZE, AF_UNIX, MSG_NOSIGNAL, SOCK_CLOEXEC, SOCK_DGRAM, sendto, socket};
use std::env;
use std::rt::Env;

const READY: &[u8] = b"READY=1";

// Where an address's path begins, after its family, and how long it may be.
const PATH: usize = 2;

const MOST_PATH: usize = 107;

/// Who wants to know that the service is ready, where somebody does.
#[derive(Drop)]
pub struct Ready {
    path: Option<String>,
}

impl Ready {
    /// The variable NOTIFY_SOCKET names it.
    pub fn new<R: Env + AllocGlobal>(rt: &R) -> Ready {
        Ready {
            path: env::var(rt, "NOTIFY_SOCKET").ok(),
        }
    }

    /// Tells that it is ready.
    pub fn tell(&self) {
        let mut address = [0; _SS_SIZE];
        if let Some(path) = &self.path
            && let Some(length) = put_address(path.as_str().as_bytes(), &mut address)
        {
            send_ready(&address, length);
        }
    }
}

// Puts the address of the Unix socket at this path there, and says how long it is. A path that begins with @ is in the system's own
// space of names.
fn put_address(path: &[u8], address: &mut [u8; _SS_SIZE]) -> Option<u32>
    ensures { IfSome result (λ length. length ≤ 128) }
{
    if path.len() > MOST_PATH {
        return None;
    }
    address[0] = AF_UNIX as u8;
    address[PATH..PATH + path.len()].copy_from_slice(path);
    if path.first() == Some(&b'@') {
        address[PATH] = 0;
    }
    Some((PATH + path.len()) as u32)
}

fn send_ready(address: &[u8; _SS_SIZE], length: u32)
    requires { length ≤ 128 }
{
    let number = unsafe { socket(AF_UNIX, SOCK_DGRAM | SOCK_CLOEXEC, 0) };
    if number >= 0 {
        unsafe { sendto(number, READY, MSG_NOSIGNAL, address, length) };
        libc::close(number);
    }
}

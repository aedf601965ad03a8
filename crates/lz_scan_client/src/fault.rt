//! Why a service wasn't scanned to its end.

/// Why a scan gave no keys.
#[derive(Clone, Copy, Debug, PartialEq, Eq)]
pub enum ScanFault {
    /// A read or a write failed, or the connection ended before the scan did.
    Connection,
    /// A reply is no page of keys: it is an error, or what no such service tells.
    Reply,
    Memory,
}

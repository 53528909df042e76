/// The numbers of a store.
#[derive(Clone, Copy)]
pub struct Numbers {
    /// The moment, in Unix seconds.
    pub moment: u64,
    /// The CAS number that was given last.
    pub last_cas: u64,
    /// Items whose CAS number is at most this were flushed.
    pub flush_mark: u64,
    /// The moment of a delayed flush, if one is pending.
    pub pending_flush: Option<u64>,
}

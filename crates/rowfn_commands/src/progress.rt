//! How many rows were read, on standard error.

use rowfn_batches::Watcher;

/// After how many bytes more it is printed again.
pub const PRINTED_BYTES: u64 = 1 << 24;

/// Prints on one line of a terminal, which it begins anew each time.
#[derive(Drop)]
pub struct Progress<'a, P> {
    pub console: &'a P,
}

impl<P: Eprint> Watcher for Progress<'_, P> {
    fn tell(&mut self, rows: u64, bytes: u64) {
        let _ = eprint!(self.console; "\rrows {rows}, bytes {bytes}");
    }
}

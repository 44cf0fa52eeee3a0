//! Streams that are watched.

use crate::programs::{asked, read_asked, settings};
use fixtures::same;
use rowfn_batches::{RefusedRows, Settings, Watched, Watcher, run};
use std::alloc::Global;
use std::cell::Cell;
use std::io::{self, Read};

/// Gives a text byte by byte.
#[derive(Drop)]
struct Drips<'a> {
    left: &'a [u8],
}

impl Read for Drips<'_> {
    fn read(&mut self, buf: &mut [u8]) -> io::Result<usize> {
        let count = buf.len().min(self.left.len()).min(1);
        let (given, left) = self.left.split_at(count);
        buf[..count].copy_from_slice(given);
        self.left = left;
        Ok(count)
    }
}

/// Keeps how often it was told how far rows came, and what last.
#[derive(Drop)]
struct Diary<'a> {
    last: &'a Cell<(u64, u64, u64)>,
}

impl Watcher for Diary<'_> {
    fn tell(&mut self, rows: u64, bytes: u64) {
        let (count, _, _) = self.last.get();
        self.last.set((count.saturating_add(1), rows, bytes));
    }
}

/// How often a stream reports how far it came, by rows that are passed on one by one and reads of one
/// byte, and what it reports last; and how many rows it counts in all.
fn watched(alloc: Global, input: &str, every: u64) -> Option<((u64, u64, u64), u64)> {
    let (last, rows) = (Cell::new((0, 0, 0)), Cell::new(0));
    let answers = read_asked(alloc, "a i64: a")?;
    let settings = Settings {
        rows_passed: Some(&rows),
        ..settings(1, 1000)
    };
    let drips = Drips {
        left: input.as_bytes(),
    };
    let reader = Watched::new(drips, Diary { last: &last }, &rows, every);
    let mut out = Vec::new(alloc);
    let mut refused = RefusedRows::<Vec<u8>>::End;
    match run(
        alloc,
        &settings,
        &asked(&answers),
        None,
        reader,
        &mut out,
        &mut refused,
    ) {
        Ok(_) => Some((last.get(), rows.get())),
        Err(_) => None,
    }
}

#[test]
fn how_far_rows_have_come_is_reported(rt: HostRuntime) {
    let input = "a\n1\n2\n3\n";
    assert!(rt; same(rt, watched(rt.alloc(), input, 4), Some(((2, 2, 8), 3))));
    assert!(rt; same(rt, watched(rt.alloc(), input, 9), Some(((0, 0, 0), 3))));
}

//! Standard output and error that keep what is printed.
ghost use Rattle.std.specs.Prelude.{◌≤◌, length, IfOk};

use std::alloc::Global;
use std::cell::RefCell;
use std::fmt::Display;
use std::io::{self, ErrorKind};

/// Takes so many bytes in all, and is then closed.
#[derive(Drop)]
struct Pipe {
    taken: Vec<u8>,
    limit: usize,
}

impl Pipe {
    ghost use Rattle.std.specs.Prelude.{◌≤◌, length, IfOk};

    /// Takes as many of the bytes as it can, and returns how many; fails if it can take none.
    fn take(&mut self, bytes: &[u8]) -> io::Result<usize>
        ensures { IfOk result (λ count. count ≤ length bytes.now) }
    {
        let count = bytes.len().min(self.limit);
        if count == 0 && !bytes.is_empty() {
            return Err(io::Error::from(ErrorKind::BrokenPipe));
        }
        self.taken.extend_from_slice(&bytes[..count])?;
        self.limit -= count;
        Ok(count)
    }
}

/// Standard output and error.
#[derive(Drop)]
pub(crate) struct Console {
    alloc: Global,
    output: RefCell<Pipe>,
    messages: RefCell<Pipe>,
}

/// Takes some of the bytes; fails if the pipe is in use.
fn take_some(pipe: &RefCell<Pipe>, bytes: &[u8]) -> io::Result<usize>
    ensures { IfOk result (λ count. count ≤ length bytes.now) }
{
    match pipe.try_borrow_mut() {
        Ok(mut pipe) => pipe.take(bytes),
        Err(_) => Err(io::Error::from(ErrorKind::Other)),
    }
}

/// Takes all of the bytes, or fails.
fn take_all(pipe: &RefCell<Pipe>, bytes: &[u8]) -> io::Result<()> {
    if take_some(pipe, bytes)? == bytes.len() {
        return Ok(());
    }
    Err(io::Error::from(ErrorKind::BrokenPipe))
}

impl Console {
    /// A console whose output and error take so many bytes.
    pub(crate) fn new(alloc: Global, output_limit: usize, messages_limit: usize) -> Console {
        Console {
            alloc,
            output: RefCell::new(Pipe {
                taken: Vec::new(alloc),
                limit: output_limit,
            }),
            messages: RefCell::new(Pipe {
                taken: Vec::new(alloc),
                limit: messages_limit,
            }),
        }
    }

    /// What was printed on standard output, and what on standard error.
    pub(crate) fn into_printed(self) -> (Vec<u8>, Vec<u8>) {
        let Console {
            output,
            messages,
            ..
        } = self;
        (output.into_inner().taken, messages.into_inner().taken)
    }

    /// The text of a value, and what follows it.
    fn text<D: Display + Drop>(&self, value: D, end: &str) -> io::Result<String> {
        Ok(format!(in self.alloc; "{value}{end}")?)
    }
}

impl Alloc for Console {
    type A = Global;

    fn alloc(&self) -> Global {
        self.alloc
    }
}

impl Print for Console {
    fn print<D: Display + Drop>(&self, value: D) -> io::Result<()> {
        take_all(&self.output, self.text(value, "")?.as_bytes())
    }

    fn println<D: Display + Drop>(&self, value: D) -> io::Result<()> {
        take_all(&self.output, self.text(value, "\n")?.as_bytes())
    }

    fn write_all(&self, bytes: &[u8]) -> io::Result<()> {
        take_all(&self.output, bytes)
    }

    fn write_some(&self, bytes: &[u8]) -> io::Result<usize> {
        take_some(&self.output, bytes)
    }
}

impl Eprint for Console {
    fn eprint<D: Display + Drop>(&self, value: D) -> io::Result<()> {
        take_all(&self.messages, self.text(value, "")?.as_bytes())
    }

    fn eprintln<D: Display + Drop>(&self, value: D) -> io::Result<()> {
        take_all(&self.messages, self.text(value, "\n")?.as_bytes())
    }
}

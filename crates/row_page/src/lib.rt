//! What the programs that print rows print with: a page, whose functions have no early exits, so that what prints a row is short to prove.
#![tactic(auto)]

use std::alloc::{AllocError, Global};
use std::cell::Cell;
use std::fmt::Display;
use std::io;

/// Standard output. Where something can't be printed, or memory is out, nothing behind it is printed.
#[derive(Drop)]
pub struct Page {
    rt: HostRuntime,
    outcome: Cell<io::Result<()>>,
}

impl Page {
    /// A page on which nothing is printed yet.
    pub fn new(rt: HostRuntime) -> Self {
        Page {
            rt,
            outcome: Cell::new(Ok(())),
        }
    }

    /// The memory of the program.
    pub fn alloc(&self) -> Global {
        self.rt.alloc()
    }

    /// Prints a text.
    pub fn put(&self, text: &str) {
        self.write_fmt(text);
    }

    /// Prints a text, and ends the line.
    pub fn put_line(&self, text: &str) {
        self.put(text);
        self.put("\n");
    }

    /// Prints bytes in hexadecimal, a space before each.
    pub fn put_bytes(&self, bytes: &[u8]) {
        for byte in bytes {
            write!(self, " {byte:02x}");
        }
    }

    /// Prints a value, for `write!` and `writeln!`.
    pub fn write_fmt<D: Display + Drop>(&self, value: D) {
        if self.outcome.get().is_ok() {
            self.outcome.set(self.rt.print(value));
        }
    }

    /// Ends what is printed, for want of memory.
    pub fn fail(&self, error: AllocError) {
        if self.outcome.get().is_ok() {
            self.outcome.set(Err(io::Error::from(error)));
        }
    }

    /// Answers each line of standard input, and says whether all was printed.
    pub fn answer_lines<F: Fn(&Page, &str)>(self, answer: F) -> io::Result<()>
        requires { F.IsAlwaysCallable answer }
    {
        for line in self.rt.lines(self.alloc()) {
            answer(&self, line?.as_str());
        }
        self.outcome()
    }

    /// Whether all was printed.
    pub fn outcome(self) -> io::Result<()> {
        self.outcome.into_inner()
    }
}

/// The first word of a line, and what stands behind the space behind it.
pub fn first_word(line: &str) -> (&str, &str) {
    line.split_once(' ').unwrap_or((line, ""))
}

//! Readers and writers that fail or never end.

use std::io;
use std::io::{ErrorKind, Read, Write};

/// Gives one byte a call; the call after so many fails.
#[derive(Drop)]
pub struct Feeder {
    bytes: &'static [u8],
    calls: usize,
}

impl Feeder {
    /// No call fails.
    pub fn whole(bytes: &'static [u8]) -> Feeder {
        Feeder::failing_after(bytes, usize::MAX)
    }

    pub fn failing_after(bytes: &'static [u8], calls: usize) -> Feeder {
        Feeder { bytes, calls }
    }
}

impl Read for Feeder {
    fn read(&mut self, buffer: &mut [u8]) -> io::Result<usize> {
        if self.calls == 0 {
            return Err(ErrorKind::Other.into());
        }
        self.calls -= 1;
        match (self.bytes.split_first(), buffer.first_mut()) {
            (Some((byte, rest)), Some(place)) => {
                *place = *byte;
                self.bytes = rest;
                Ok(1)
            }
            _ => Ok(0),
        }
    }
}

/// Never ends.
#[derive(Drop)]
pub struct Endless {
    pub given: usize,
}

impl Read for Endless {
    fn read(&mut self, buffer: &mut [u8]) -> io::Result<usize> {
        self.given = self.given.saturating_add(buffer.len());
        Ok(buffer.len())
    }
}

/// What a writer does at the call after which it takes no more.
#[derive(Clone, Copy, Drop)]
pub enum Then {
    TakesNothing,
    Fails,
    FailsToFlush,
}

const ROOM: usize = 64;

/// Takes at most so many bytes a call, and so many in all.
#[derive(Drop)]
pub struct Taker {
    bytes: [u8; ROOM],
    taken: usize,
    most: usize,
    room: usize,
    then: Then,
}

impl Taker {
    /// Takes one byte a call.
    pub fn new(room: usize, then: Then) -> Taker {
        Taker::by(1, room, then)
    }

    pub fn by(most: usize, room: usize, then: Then) -> Taker {
        Taker {
            bytes: [0; ROOM],
            taken: 0,
            most,
            room: room.min(ROOM),
            then,
        }
    }

    pub fn taken(&self) -> &[u8] {
        &self.bytes[..self.taken.min(ROOM)]
    }
}

impl Write for Taker {
    fn write(&mut self, bytes: &[u8]) -> io::Result<usize> {
        let (from, room) = (self.taken, self.room.min(ROOM));
        if from < room && !bytes.is_empty() {
            let count = bytes.len().min(self.most).min(room - from);
            self.bytes[from..from + count].copy_from_slice(&bytes[..count]);
            self.taken = from + count;
            return Ok(count);
        }
        match self.then {
            Then::Fails if !bytes.is_empty() => Err(ErrorKind::Other.into()),
            _ => Ok(0),
        }
    }

    fn flush(&mut self) -> io::Result<()> {
        match self.then {
            Then::FailsToFlush => Err(ErrorKind::Other.into()),
            _ => Ok(()),
        }
    }
}

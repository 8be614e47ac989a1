// Standard output, gathered in memory of a fixed size and written when that is full, and the word on standard error when a program ends.
ghost use Rattle.std.specs.Prelude.{◌≡◌, ◌≤◌, ◌-◌};

use std::fmt::Display;
use std::io;
use std::io::{ErrorKind, Write};

// Bytes that are gathered before they are written.
const GATHERED: usize = 16384;

// What is written is not in the logic, so nothing is promised of it; no text is left out unless a write fails.
#[derive(Drop)]
pub struct Output {
    rt: HostRuntime,
    gathered: [u8; GATHERED],
    used: usize,
    ghost within: { used ≤ 16384 },
}

// What a program has to say of what it was asked; of several the greatest is said.
#[derive(Clone, Copy, Debug, PartialEq, Eq, PartialOrd, Ord)]
pub enum Ending {
    // It is done.
    Done,
    // Something was refused or not understood, and the output says what.
    Refused,
    // The words that it was given can't be read.
    Misused,
}

impl Output {
    pub fn new(rt: HostRuntime) -> Output {
        Output {
            rt,
            gathered: [0; GATHERED],
            used: 0,
        }
    }

    // A line that says why what was asked is not done.
    pub fn refuse<D: Display + Drop>(&mut self, why: D) -> io::Result<Ending> {
        writeln!(self, "{why}")?;
        Ok(Ending::Refused)
    }

    fn room(&self) -> usize
        ensures { result ≡ 16384 - self.now.used }
    {
        GATHERED - self.used
    }

    // Writes what is left, where no write failed, and says a word on standard error, for what runs the program: that the output could not be written,
    // or that nobody reads it any more, or else why what was asked is not done.
    pub fn end(mut self, said: io::Result<Ending>) {
        let rt = self.rt;
        let ended = match said {
            Ok(ending) => self.flush().map(|()| ending),
            Err(error) => Err(error),
        };
        let word = match ended {
            Ok(Ending::Done) => return,
            Ok(Ending::Refused) => "refused",
            Ok(Ending::Misused) => "use",
            Err(error) => match error.kind() {
                ErrorKind::BrokenPipe => "not read",
                _ => "not written",
            },
        };
        let _ = eprintln!(rt; "{word}");
    }
}

impl Write for Output {
    fn write(&mut self, text: &[u8]) -> io::Result<usize> {
        self.write_all(text)?;
        Ok(text.len())
    }

    fn flush(&mut self) -> io::Result<()> {
        let gathered = &self.gathered[..self.used];
        self.rt.stdout().write_all(gathered)?;
        self.used = 0;
        Ok(())
    }

    // Text longer than the memory goes straight out.
    fn write_all(&mut self, text: &[u8]) -> io::Result<()> {
        if self.room() < text.len() {
            self.flush()?;
        }
        if self.room() < text.len() {
            return self.rt.stdout().write_all(text);
        }
        let end = self.used + text.len();
        self.gathered[self.used..end].copy_from_slice(text);
        self.used = end;
        Ok(())
    }
}

// Answers as text, gathered in a buffer.
use arrayvec::ArrayVec;
use itoa::{Buffer, Integer};
use reason::Refusal;
use std::fmt;
use std::fmt::Write as _;
use std::io::{Stdout, Write};

const ROOM: usize = 65536;

// What is not yet written out. It lies here and not on the heap, as that of std's `BufWriter` does, so that no answer depends on memory.
#[derive(Drop)]
pub struct Output {
    buffer: ArrayVec<u8, ROOM>,
    stdout: Stdout,
}

// What an answer begins with: a word alone, a number, or a word with a number.
#[derive(Clone, Copy)]
pub enum Word {
    BadLine,
    Ok,
    Nobody,
    Done,
    Spent,
    Agrees,
}

#[derive(Clone, Copy)]
pub enum Said {
    Plain(Word),
    Number(u64),
    // Moved, which is 1, with whether a round was closed.
    Moved(u8),
    Task(usize),
    Stopped(Refusal),
    Refused(Refusal),
    // Refused for 9, with the place of the first turn that is no task.
    RefusedAt(usize),
    // The index of the first triple that differs.
    Differs(usize),
}

impl fmt::Display for Word {
    fn fmt<W: fmt::Write>(&self, f: &mut fmt::Formatter<W>) -> fmt::Result {
        f.write_str(match self {
            Word::BadLine => "bad line",
            Word::Ok => "ok",
            Word::Nobody => "none",
            Word::Done => "done",
            Word::Spent => "spent",
            Word::Agrees => "agrees",
        })
    }
}

impl fmt::Display for Said {
    fn fmt<W: fmt::Write>(&self, f: &mut fmt::Formatter<W>) -> fmt::Result {
        match self {
            Said::Plain(word) => write!(f, "{word}"),
            Said::Number(n) => write!(f, "{n}"),
            Said::Moved(closed) => write!(f, "1 {closed}"),
            Said::Task(task) => write!(f, "task {task}"),
            Said::Stopped(refusal) => write!(f, "stopped {}", refusal.number()),
            Said::Refused(refusal) => write!(f, "refused {}", refusal.number()),
            Said::RefusedAt(place) => write!(f, "refused 9 place {place}"),
            Said::Differs(index) => write!(f, "differs {index}"),
        }
    }
}

impl fmt::Write for Output {
    fn write_str(&mut self, s: &str) -> fmt::Result {
        self.bytes(s.as_bytes());
        Ok(())
    }
}

impl Output {
    pub(crate) fn new(stdout: Stdout) -> Output {
        Output {
            buffer: ArrayVec::new(),
            stdout,
        }
    }

    // Writes out what the buffer holds. Where that fails there is nobody to tell, and the replay goes on.
    pub(crate) fn flush(&mut self) {
        let _ = self.stdout.write_all(self.buffer.as_slice());
        self.buffer.clear();
    }

    // A full buffer is written out first.
    fn bytes(&mut self, bytes: &[u8]) {
        if self.buffer.remaining_capacity() < bytes.len() {
            self.flush();
        }
        if self.buffer.try_extend_from_slice(bytes).is_err() {
            // They are longer than the buffer.
            let _ = self.stdout.write_all(bytes);
        }
    }

    pub(crate) fn say<D: fmt::Display + Drop>(&mut self, said: D) {
        let _ = write!(self, "{said}");
    }

    // Says one thing more, after a space.
    pub(crate) fn next<D: fmt::Display + Drop>(&mut self, said: D) {
        let _ = write!(self, " {said}");
    }

    // Each number of a list, after a space. By `itoa`: with `write!` a state, which is over a thousand numbers, took 2.4 times as long.
    pub(crate) fn list<T: Integer>(&mut self, list: &[T]) {
        let mut digits = Buffer::new();
        for &number in list {
            self.bytes(b" ");
            self.bytes(digits.format(number).as_bytes());
        }
    }

    // Ends the answer.
    pub(crate) fn line_feed(&mut self) {
        self.bytes(b"\n");
    }
}

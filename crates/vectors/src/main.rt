// Replays requests over the libraries. A line of numbers is a request, and is answered by a line; one state is kept, all zeros at first, as a
// list of numbers (`snapshot`).
//
//     1 KIND N R P..            a fresh state, kept also if refused    0, or refused K
//     2 TASK                    a turn                                 1 C moved (C: 1 if it closed a round, else 0), 0 waited, or refused K
//     3                         ready                                  task T, none, or refused 7
//     4 ALLOWANCE LOGLEN T..    a run, with a log of bytes 255         its ending, turns and rounds, 64 moves, 64 waits, the log
//     5                         the state                              its fields, 64 parents, the fields of 64 tasks
//     6 FIELD TASK VALUE        changes a field                        ok
//     7 N LISTLEN T..           passes, to a list of 2^32 - 1          their number or the refusal, the list
//     8 N PLACE T..             the first pass from a place            its length and its bytes
//     9 SHAPE N TABLELEN        a shape, to a table of bytes 255       ok or refused K, the table
//     10 KIND N R NP NS NW P.. S.. W..    as 1, with so many parents, starts and work lengths
//     11 KIND N R NP NS NW P.. S.. W.. B..    a play-back of the bytes B, what it returns is kept    agrees, differs I, or refused K
//
// Any other line is answered `bad line` and changes nothing. Standard input is read in blocks, whose bytes go one by one to the numbers of the line that is being read
// (text.rt). Those of a whole line make a request (request.rt), which is answered (answer.rt, fields.rt). The answers are gathered in a buffer (print.rt).
#![tactic(auto)]

mod answer;
mod fields;
mod print;
mod request;
mod text;

use fields::Kept;
use print::{Output, Said, Word};
use request::Request;
use std::io::{Read, Stdin};
use text::Numbers;

// The most bytes of a block.
const BLOCK: usize = 65536;

// The numbers of the line being read, the kept state, and the answers so far.
#[derive(Drop)]
struct Replay {
    numbers: Numbers,
    kept: Kept,
    out: Output,
}

impl Replay {
    // None for a bad line, with nothing printed.
    fn answer(&mut self) -> Option<()> {
        self.numbers.end()?;
        let request = Request::of(&self.numbers)?;
        answer::answer(&mut self.kept, request, &mut self.out)
    }

    // Answers the line that ends here.
    fn end_line(&mut self) {
        if self.answer().is_none() {
            self.out.say(Said::Plain(Word::BadLine));
        }
        self.out.line_feed();
        self.numbers.clear();
    }

    // Takes the bytes of a block, and answers each line that ends in it.
    fn read_block(&mut self, block: &[u8]) {
        for &byte in block {
            if byte == b'\n' {
                self.end_line();
            } else {
                self.numbers.byte(byte);
            }
        }
    }

    // Answers every line of the input. A read that fails counts as its end. A last line needs no line feed.
    fn read_all(&mut self, mut input: Stdin) {
        // A proved loop has to end, and nothing says that the input does. No run uses up so many turns.
        for _ in 0..u64::MAX {
            let mut block = [0u8; BLOCK];
            let length = input.read(&mut block).unwrap_or(0);
            if length == 0 {
                break;
            }
            self.read_block(&block[..length]);
        }
        if !self.numbers.is_empty() {
            self.end_line();
        }
        self.out.flush();
    }
}

fn main(rt: HostRuntime) {
    let mut replay = Replay {
        numbers: Numbers::new(),
        kept: Kept::new(),
        out: Output::new(rt.stdout()),
    };
    replay.read_all(rt.stdin());
}

// The play program: `play SETUP TRACE` plays the bytes of a trace from a setup text, and writes what playback_text makes of both: the verdict to
// standard output, and what the barrier does where it differs to standard error. Of each file one byte past the limit of 65,536 is read, so that a
// longer one is refused and not cut.
#![tactic(auto)]

ghost use Rattle.std.specs.Prelude.{◌≤◌, length, IfOk};

use std::alloc::AllocError;
use std::env::FillError;
use std::fs::File;
use std::io;
use std::rt::Env;

// The system's numbers for an argument that is missing, and for a name that is too long.
const EINVAL: i32 = 22;

const ENAMETOOLONG: i32 = 36;

// Why nothing is played: a line for standard error, or no memory to write it.
#[derive(Drop)]
enum Failure {
    Told(String),
    NoMemory(AllocError),
}

impl From<AllocError> for Failure {
    fn from(error: AllocError) -> Failure {
        Failure::NoMemory(error)
    }
}

// Says on standard error what went wrong. Where that cannot be written there is nobody to tell. No twin of `sheet`'s, which takes text: a line to be
// said here comes as bytes too.
fn say(rt: &HostRuntime, message: &[u8]) {
    let _ = rt.stderr().write_all(message);
}

// The system's words for an error: std writes a number after them.
fn words_of(error: &str) -> &str {
    let Some((words, _)) = error.split_once(" (os error ") else {
        return error;
    };
    words
}

// The line that says what failed, as the caller names it, a colon and why.
fn line_of(rt: &HostRuntime, what: &str, error: io::Error) -> Result<String, AllocError> {
    let error = format!(in rt.alloc(); "{error}")?;
    let words = words_of(&error);
    format!(in rt.alloc(); "{what}: {words}\n")
}

// The failure of which that line tells.
fn told(rt: &HostRuntime, what: &str, error: io::Error) -> Failure {
    match line_of(rt, what, error) {
        Ok(line) => Failure::Told(line),
        Err(error) => Failure::NoMemory(error),
    }
}

// Reads the file of that name.
fn read_file(rt: &HostRuntime, path: &str, buf: &mut [u8]) -> io::Result<usize>
    ensures { IfOk result (λ n. n ≤ length buf.new) }
{
    let mut file = File::open(rt, path)?;
    input::read_all(&mut file, buf)
}

// The name of the file that an argument gives. A path is text, so that a name that is not UTF-8 opens none.
fn path_of<'a>(rt: &HostRuntime, place: usize, path: &'a mut [u8]) -> io::Result<&'a str> {
    match rt.arg(place, path) {
        Ok(length) => str::from_utf8(&path[..length]).map_err(|_| io::Error::new(
            io::ErrorKind::InvalidInput,
            "it is not UTF-8",
        )),
        Err(FillError::NotPresent) => Err(io::Error::from_raw_os_error(EINVAL)),
        Err(FillError::TooLong) => Err(io::Error::from_raw_os_error(ENAMETOOLONG)),
    }
}

// Reads the file that an argument names.
fn read_argument(rt: &HostRuntime, place: usize, buf: &mut [u8]) -> Result<usize, Failure>
    ensures { IfOk result (λ n. n ≤ length buf.new) }
{
    let mut path = [0u8; 4096];
    let path = path_of(rt, place, &mut path).map_err(|error| told(
        rt,
        "play: a file's name",
        error,
    ))?;
    read_file(rt, path, buf).map_err(|error| told(rt, path, error))
}

// Whether the program was given an argument at that place.
fn is_given(rt: &HostRuntime, place: usize) -> bool {
    !matches!(rt.arg(place, &mut []), Err(FillError::NotPresent))
}

// Plays the trace, and writes both lines.
fn play(rt: &HostRuntime, setup: &[u8], trace: &[u8]) {
    let printed = playback_text::play(setup, trace);
    let bytes = printed.bytes;
    let verdict = printed.verdict;
    let len = printed.len;
    if rt.write_all(&bytes[..verdict]).is_err() {
        say(rt, b"play: standard output cannot be written\n");
        return;
    }
    say(rt, &bytes[verdict..len]);
}

// Reads both files, and plays one from the other.
fn run(rt: &HostRuntime) -> Result<(), Failure> {
    let mut setup = [0u8; 65537];
    let mut trace = [0u8; 65537];
    let s = read_argument(rt, 1, &mut setup)?;
    let t = read_argument(rt, 2, &mut trace)?;
    play(rt, &setup[..s], &trace[..t]);
    Ok(())
}

fn main(rt: HostRuntime) -> Result<(), AllocError> {
    if !is_given(&rt, 2) || is_given(&rt, 3) {
        say(&rt, b"usage: play SETUP TRACE\n");
        return Ok(());
    }
    match run(&rt) {
        Ok(()) => Ok(()),
        Err(Failure::Told(line)) => {
            say(&rt, line.as_bytes());
            Ok(())
        }
        Err(Failure::NoMemory(error)) => Err(error),
    }
}

// The text that an argument of a program names, a file or standard input; what became of it; and the program's status. What cannot
// be read is told on standard error, in a line.
#![tactic(auto)]

ghost use Rattle.std.specs.Prelude.{◌≡◌, ◌≤◌, IfOk, IfSome, length};
ghost use Rattle.std.specs.Result.{result_ok};
ghost use Rattle.files.specs.Tally.{added, status_of};

use printing::Printer;
use std::env::{Env, FillError};
use std::fs::{File, OpenOptions};
use std::io;
use std::io::{Cursor, Read, Write};
use std::str::from_utf8;

// ---- what cannot be read

// Where the system's words for an error end: std writes the error's number behind them.
fn words_end(text: &[u8]) -> usize {
    text.windows(11)
        .position(|part| part == b" (os error ".as_slice())
        .unwrap_or(text.len())
}

fn say_reason(to: Printer, error: &io::Error) {
    let mut said = Cursor::new([0u8; 256]);
    let _ = write!(said, "{error}");
    let end = said.position() as usize;
    let bytes = said.into_inner();
    let text = views::part(&bytes, 0, end);
    to.text(views::part(text, 0, words_end(text)));
}

// Says what the system said of a file, as `program: name: reason`.
pub fn say_unread(rt: HostRuntime, program: &[u8], name: &[u8], error: &io::Error) {
    let to = Printer::Errors(rt);
    to.text(program);
    to.text(b": ");
    views::print_name(to, name);
    to.text(b": ");
    say_reason(to, error);
    to.text(b"\n");
}

// How much was read; a failure is told with the two names.
fn told(rt: HostRuntime, program: &[u8], name: &[u8], read: io::Result<usize>) -> Option<usize>
    ensures { result ≡ result_ok read }
{
    match read {
        Ok(n) => Some(n),
        Err(error) => {
            say_unread(rt, program, name, &error);
            None
        }
    }
}

// ---- a file that is open

// The first bytes of what is open, as many as the buffer holds.
pub fn read_up_to<R: Read>(input: &mut R, buf: &mut [u8]) -> io::Result<usize>
    ensures { IfOk result (λ n. n ≤ length buf.new) }
{
    let mut n = 0;
    // each turn takes as much as was read: no range or iterator gives these steps
    while n < buf.len() {
        let more = input.read(&mut buf[n..])?;
        if more == 0 {
            break;
        }
        n += more;
    }
    Ok(n)
}

// `-` is standard input.
pub fn is_standard_input(name: &[u8]) -> bool {
    name == b"-".as_slice()
}

// The first bytes of standard input; none where a read failed, which is told with the program's name.
pub fn read_standard_input(rt: HostRuntime, program: &[u8], buf: &mut [u8]) -> Option<usize>
    ensures { IfSome result (λ n. n ≤ length buf.new) }
{
    let mut input = rt.stdin();
    let read = read_up_to(&mut input, buf);
    told(rt, program, b"standard input", read)
}

// ---- the arguments

// The system's number for a name that is too long.
const NAME_TOO_LONG: i32 = 36;

// With the program's own name.
pub fn argument_count(rt: HostRuntime) -> usize {
    for i in 0..usize::MAX {
        let mut none = [0u8; 1];
        if let Err(FillError::NotPresent) = rt.arg(i, &mut none) {
            return i;
        }
    }
    usize::MAX
}

// Says of an argument that did not fit a buffer of 4,096 bytes that it is too long to be a name.
pub fn say_long_argument(rt: HostRuntime, program: &[u8]) {
    let error = io::Error::from_raw_os_error(NAME_TOO_LONG);
    say_unread(rt, program, b"an argument", &error);
}

// How many arguments before this name are not UTF-8. One that is too long to be a name counts for nothing.
fn names_before(rt: HostRuntime, name: &[u8]) -> usize {
    let mut before: usize = 0;
    for i in 1..usize::MAX {
        let mut buf = [0u8; 4096];
        match rt.arg(i, &mut buf) {
            Ok(n) => {
                let other = &buf[..n];
                if other == name {
                    return before;
                }
                if from_utf8(other).is_err() {
                    before += 1;
                }
            }
            Err(FillError::TooLong) => {}
            Err(FillError::NotPresent) => return before,
        }
    }
    before
}

// A path of std's is UTF-8. The scripts at the root open each file whose name is not, in the order of the arguments, and this is the
// descriptor of the first.
const FIRST_GIVEN: usize = 300;

fn open_given(rt: HostRuntime, before: usize) -> io::Result<File> {
    let mut path = Cursor::new([0u8; 40]);
    write!(path, "/dev/fd/{}", FIRST_GIVEN.saturating_add(before))?;
    let end = path.position() as usize;
    let bytes = path.into_inner();
    match from_utf8(views::part(&bytes, 0, end)) {
        Ok(path) => File::open(&rt, path),
        Err(_) => Err(io::Error::from(io::ErrorKind::InvalidFilename)),
    }
}

fn open_named(rt: HostRuntime, name: &[u8]) -> io::Result<File> {
    match from_utf8(name) {
        Ok(path) => File::open(&rt, path),
        Err(_) => open_given(rt, names_before(rt, name)),
    }
}

fn read_named(rt: HostRuntime, name: &[u8], buf: &mut [u8]) -> io::Result<usize>
    ensures { IfOk result (λ n. n ≤ length buf.new) }
{
    let mut file = open_named(rt, name)?;
    read_up_to(&mut file, buf)
}

// The first bytes of the file of that name; none where it could not be read, which is told with the program's name.
pub fn read_file(rt: HostRuntime, program: &[u8], name: &[u8], buf: &mut [u8]) -> Option<usize>
    ensures { IfSome result (λ n. n ≤ length buf.new) }
{
    if is_standard_input(name) {
        return read_standard_input(rt, program, buf);
    }
    let read = read_named(rt, name, buf);
    told(rt, program, name, read)
}

// ---- what became of the files

// What became of a file.
#[derive(Clone, Copy)]
pub enum Outcome {
    // with so many warnings
    Read(u64),
    Refused,
    // it could not be read, which was told on standard error
    Failed,
}

// How many files were refused, how many could not be read, and how many warnings there are of the others.
#[derive(Clone, Copy, Default)]
pub struct Tally {
    pub refused: u64,
    pub failed: u64,
    pub warnings: u64,
}

impl Tally {
    // A file more. No count comes near to the limit.
    pub fn add(&mut self, outcome: Outcome)
        ensures { self.new ≡ added outcome self.old }
    {
        match outcome {
            Outcome::Read(n) => self.warnings = self.warnings.wrapping_add(n),
            Outcome::Refused => self.refused = self.refused.wrapping_add(1),
            Outcome::Failed => self.failed = self.failed.wrapping_add(1),
        }
    }

    pub fn status(self) -> Status
        ensures { result ≡ status_of self }
    {
        if 0 < self.failed {
            Status::Failed
        } else if 0 < self.refused {
            Status::Refused
        } else if 0 < self.warnings {
            Status::Warned
        } else {
            Status::Read
        }
    }
}

// What a program tells of its files, by the number that it writes.
#[derive(Clone, Copy)]
pub enum Status {
    // all were read
    Read,
    // one was refused
    Refused,
    // one could not be read
    Failed,
    // all were read, some with warnings
    Warned,
}

// Where the scripts at the root read a program's status from: a program of Rattle has none of its own.
const STATUS: &str = "/dev/fd/3";

fn write_status(rt: HostRuntime, status: u64) -> io::Result<()> {
    let mut file = OpenOptions::new().append(true).open(&rt, STATUS)?;
    write!(file, "{status}\n")
}

pub fn tell_status(rt: HostRuntime, status: u64) {
    let _ = write_status(rt, status);
}

impl Status {
    pub fn tell(self, rt: HostRuntime) {
        tell_status(rt, self as u64);
    }
}

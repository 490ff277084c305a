// Arguments, and a file or standard input read into a lent buffer. What fails is told on standard error in one line: the name, and why.
ghost use Rattle.std.specs.Prelude.{◌≡◌, ◌≤◌, length, IfSome, IfOk, IfErr, IsTrue};
ghost use Rattle.io.specs.Counts.{IsPrefixLen};

use super::output::tell;
use std::env::FillError;
use std::io::{self, Read};
use std::rt::{Env, Runtime};
use std::{fs, str};

// An input that cannot be read, or not to its end; why stands on standard error. So many of its bytes stand at the start of the buffer.
#[derive(Clone, Copy, Debug)]
pub struct Unread {
    pub len: usize,
}

// Tells of an input of which no more than len bytes can be read.
fn told(rt: &(impl Eprint + Alloc), name: &str, error: io::Error, len: usize) -> Unread
    ensures { result.len ≡ len }
{
    tell(rt, name, error);
    Unread { len }
}

// Reads until the buffer is full or the input ends, and gives the number of bytes; tells of a read that fails under this name. The end of
// the input gives 0 bytes and a read that fails an error, so neither is taken for the other, be it the first read or a later one. A full
// buffer is read no further: what stands behind it is unknown.
fn fill<S: Read>(
    rt: &(impl Eprint + Alloc),
    name: &str,
    source: &mut S,
    buf: &mut [u8],
) -> Result<usize, Unread>
    ensures ok { IfOk result (λ len. IsPrefixLen len buf.new) }
    ensures err { IfErr result (λ unread. IsPrefixLen unread.len buf.new) }
{
    // A while, since std's read_to_end and read_exact do not say which bytes stand in the buffer after an error.
    let mut len = 0usize;
    while len < buf.len() {
        match source.read(&mut buf[len..]) {
            Ok(0) => break,
            Ok(more) => len += more,
            Err(error) => return Err(told(rt, name, error, len)),
        }
    }
    Ok(len)
}

// Standard input, at the start of the buffer: its length.
pub fn read_standard(rt: &(impl Input + Eprint + Alloc), buf: &mut [u8]) -> Result<usize, Unread>
    ensures ok { IfOk result (λ len. IsPrefixLen len buf.new) }
    ensures err { IfErr result (λ unread. IsPrefixLen unread.len buf.new) }
{
    fill(rt, "standard input", &mut rt.reader(), buf)
}

// The file of this name, at the start of the buffer: its length. `-` names standard input.
pub fn read_named(rt: &impl Runtime, name: &[u8], buf: &mut [u8]) -> Result<usize, Unread>
    ensures ok { IfOk result (λ len. IsPrefixLen len buf.new) }
    ensures err { IfErr result (λ unread. IsPrefixLen unread.len buf.new) }
{
    match str::from_utf8(name) {
        Ok("-") => read_standard(rt, buf),
        Ok(name) => match fs::open(rt, name) {
            Ok(mut file) => fill(rt, name, &mut file, buf),
            Err(error) => Err(told(rt, name, error, 0)),
        },
        Err(_) => {
            let why = io::Error::from(io::ErrorKind::InvalidFilename);
            Err(told(rt, "file name", why, 0))
        }
    }
}

// The file that argument i names, at the start of the buffer: its length.
pub fn read_argument(rt: &impl Runtime, i: usize, buf: &mut [u8]) -> Result<usize, Unread>
    ensures ok { IfOk result (λ len. IsPrefixLen len buf.new) }
    ensures err { IfErr result (λ unread. IsPrefixLen unread.len buf.new) }
{
    let mut name = [0u8; 4096];
    // Errors by the system's numbers, since its words for them are what is printed.
    let why = match rt.arg(i, &mut name) {
        Ok(len) => return read_named(rt, &name[..len], buf),
        Err(FillError::NotPresent) => io::Error::from_raw_os_error(22),
        Err(FillError::TooLong) => io::Error::from_raw_os_error(36),
    };
    Err(told(rt, "file name", why, 0))
}

// The text of argument i, in the lent buffer; none where there is no such argument, or one that is longer or no UTF-8.
pub fn argument<'a>(rt: &impl Env, i: usize, buf: &'a mut [u8]) -> Option<&'a str>
    ensures { IfSome result (λ word. length word.now ≤ length buf.old) }
{
    let len = rt.arg(i, buf).ok()?;
    str::from_utf8(&buf[..len]).ok()
}

// Whether argument i is this word: bytes are compared, which need be no UTF-8. A word of more than 4,096 bytes is no argument.
pub fn is_argument(rt: &impl Env, i: usize, word: &[u8]) -> bool
    ensures { IsTrue result → length word.now ≤ 4096 }
{
    let mut text = [0u8; 4096];
    match rt.arg(i, &mut text) {
        Ok(len) => &text[..len] == word,
        Err(_) => false,
    }
}

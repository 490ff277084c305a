// Replies to standard output, and on standard error why something failed.
use std::io;

// Says on standard error what failed, and why, without the number that the library puts behind the system's words. What standard
// error does not take is lost.
pub(super) fn tell(rt: &(impl Eprint + Alloc), what: &str, error: io::Error) {
    let _ = match format!(in rt.alloc(); "{error}") {
        Ok(text) => match text.split_once(" (os error ") {
            Some((why, _)) => eprintln!(rt; "{what}: {why}"),
            None => eprintln!(rt; "{what}: {text}"),
        },
        Err(_) => eprintln!(rt; "{what}: {error}"),
    };
}

// Says on standard error why standard output could not be written, where it was not.
pub fn check_written(rt: &(impl Eprint + Alloc), written: io::Result<()>) {
    if let Err(error) = written {
        tell(rt, "standard output", error);
    }
}

// All the bytes, to standard output.
pub fn write_reply(rt: &(impl Print + Eprint + Alloc), bytes: &[u8]) {
    check_written(rt, rt.write_all(bytes));
}

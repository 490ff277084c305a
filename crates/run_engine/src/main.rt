// Makes the calls of the engine that its standard input asks for, and prints one line for each. The form of the calls and
// the lines stands in tools/reference/verdict_calls.py and fit_calls.py, which also say what each line must be. Input that is no
// whole call ends the run.
#![tactic(auto)]

mod answer;
mod reply;
mod request;

use answer::answer;
use request::Request;
use samples::read_call;
use std::io;

fn main(rt: HostRuntime) -> io::Result<()> {
    let mut bytes = [0u8; 65536];
    // A for with a bound above the calls of every stored input, since each loop must be shown to end.
    for _ in 0..100000000u64 {
        let Some(request) = read_call(&rt, &mut bytes).ok().and_then(Request::parse) else {
            break;
        };
        answer(&rt, request)?;
    }
    Ok(())
}

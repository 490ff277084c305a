// The line that answers a request.
use super::lists::{List, Lists, Words};
use super::request::Request;
use records::{Counts, LONGEST_JOB, PatchSheet, Refusal, SideCounts, Support};
use samples::{Call, hash, new_buffer};
use std::io;

pub(super) fn answer(rt: &impl Print, request: Request) -> io::Result<()> {
    match request {
        Request::Read { short, job } => answer_read(rt, short, job),
        Request::Write(call) => answer_write(rt, call),
        Request::Sheet(call) => answer_sheet(rt, call),
        Request::Again { job } => answer_again(rt, job),
        Request::After { first, second } => answer_after(rt, first, second),
    }
}

// How many places are lent as the k-th of ten, of which read asks for so many: one more where short is 11, one less
// where it is k.
// (short is a byte of the call; the form of the calls names what each value says.)
fn room(asked: usize, k: u8, short: u8) -> usize {
    match short {
        11 => asked.saturating_add(1),
        _ if short == k => asked.saturating_sub(1),
        _ => asked,
    }
}

// What is printed of a refused job's counts, and of a refused sheet.
const NO_SIDE: SideCounts = SideCounts {
    gates: 0,
    outputs: 0,
};

const NO_COUNTS: Counts = Counts {
    inputs: 0,
    targets: 0,
    old: NO_SIDE,
    golden: NO_SIDE,
    candidates: 0,
};

const NO_PATCH: PatchSheet = PatchSheet {
    support: Support {
        nets: [0; 10],
        len: 0,
    },
    table: 0,
    cost: 0,
};

// The number of an answer: 0 where it is accepted.
fn number<T>(answer: &Result<T, Refusal>) -> u8 {
    match answer {
        Ok(_) => 0,
        Err(refusal) => u8::from(*refusal),
    }
}

// Reads a job and prints the number, the counts, 0 of a refused one, and the hash of the lists.
fn print_read(rt: &impl Print, job: &[u8], lists: &mut Lists) -> io::Result<()> {
    let read = lists.read(job);
    let counts = read.unwrap_or(NO_COUNTS);
    let old = counts.old;
    let golden = counts.golden;
    print!(rt; " {} {} {}", number(&read), counts.inputs, counts.targets)?;
    print!(rt;
        " {} {} {} {}",
        old.gates, old.outputs, golden.gates, golden.outputs
    )?;
    println!(rt; " {} {}", counts.candidates, lists.hash())
}

fn answer_read(rt: &impl Print, short: u8, job: &[u8]) -> io::Result<()> {
    let mut lists = Lists::new([
        room(400, 1, short),
        room(400, 2, short),
        room(1600, 3, short),
        room(32, 4, short),
        room(400, 5, short),
        room(400, 6, short),
        room(1600, 7, short),
        room(32, 8, short),
        room(10, 9, short),
        room(10, 10, short),
    ]);
    print!(rt; "read")?;
    print_read(rt, job, &mut lists)
}

fn answer_after(rt: &impl Print, first: &[u8], second: &[u8]) -> io::Result<()> {
    let mut lists = Lists::whole();
    let _ = lists.read(first);
    print!(rt; "after")?;
    print_read(rt, second, &mut lists)
}

// A count of a call: 65,535 stands for the largest of its type.
fn next_count(call: &mut Call) -> usize {
    match call.word() {
        Some(65535) => usize::MAX,
        Some(count) => count,
        None => 0,
    }
}

fn next_side(call: &mut Call) -> SideCounts {
    SideCounts {
        gates: next_count(call),
        outputs: next_count(call),
    }
}

fn next_counts(call: &mut Call) -> Counts {
    Counts {
        inputs: next_count(call),
        targets: next_count(call),
        old: next_side(call),
        golden: next_side(call),
        candidates: next_count(call),
    }
}

// Writes with so many bytes of the buffer lent and prints the number, the length and the hash of the buffer.
fn print_written(rt: &impl Print, counts: Counts, lists: &Lists, room: usize) -> io::Result<()> {
    let mut buf = new_buffer();
    let written = lists.write(counts, &mut buf[..room.min(8200)]);
    println!(rt;
        " {} {} {}",
        number(&written),
        written.unwrap_or(0),
        hash(0, &buf)
    )
}

fn answer_write(rt: &impl Print, mut call: Call) -> io::Result<()> {
    let room = call.word().unwrap_or(0);
    let counts = next_counts(&mut call);
    let lists = Lists::next(&mut call);
    print!(rt; "write")?;
    print_written(rt, counts, &lists, room)
}

// A job read and written again, with the least buffer that write asks for.
fn answer_again(rt: &impl Print, job: &[u8]) -> io::Result<()> {
    let mut lists = Lists::whole();
    let read = lists.read(job);
    print!(rt; "again {}", number(&read))?;
    print_written(rt, read.unwrap_or(NO_COUNTS), &lists, LONGEST_JOB)
}

// The candidates are taken from the call, and the sheet is what stands behind them.
fn answer_sheet(rt: &impl Print, mut call: Call) -> io::Result<()> {
    let targets = next_count(&mut call);
    let candidates = next_count(&mut call);
    let nets: Words = List::next(&mut call);
    let weights: Words = List::next(&mut call);
    let (nets, weights) = (nets.lent(), weights.lent());
    let read = records::read_sheet(targets, candidates, nets, weights, call.bytes);
    let patch = read.unwrap_or(NO_PATCH);
    print!(rt; "sheet {} {}", number(&read), patch.support.len)?;
    for net in patch.support.nets {
        print!(rt; " {net}")?;
    }
    println!(rt; " {} {}", patch.table, patch.cost)
}

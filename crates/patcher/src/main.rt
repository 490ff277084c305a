// The services on files, a command each:
//
//     patcher judge JOB            whether every input is fixable: the sheet
//     patcher choose JOB           the cheapest patch: the sheet
//     patcher fit JOB SHEET        the patched netlist: fields 1, 2 and 3
//     patcher compare JOB SHEET    `equal`, `differs X` with the smallest input X at which the outputs differ, or `refused N`
//     patcher show JOB             the job's counts, and under each its gates, nets or candidates
//
// A file named `-` is standard input. The reply goes to standard output. A refusal leaves that empty and puts `refused N` on
// standard error, but for compare, whose answer it is. Other words, and a file that cannot be read, leave it empty too, and
// standard error says what is wrong.
#![tactic(auto)]

mod compare;
mod failure;
mod fit;
mod sheets;
mod show;

ghost use Rattle.std.specs.Prelude.{IfOk};
ghost use Rattle.io.specs.Counts.{IsPrefixLen};

use failure::Failure;
use records::Refusal;
use std::env::FillError;
use std::io;
use std::rt::{Env, Runtime};

#[derive(Clone, Copy)]
enum Command {
    Judge,
    Choose,
    Fit,
    Compare,
    Show,
}

// Whether there is an argument i.
fn has_argument(rt: &impl Env, i: usize) -> bool {
    let mut text = [0u8; 1];
    !matches!(rt.arg(i, &mut text), Err(FillError::NotPresent))
}

// The command that the arguments give: the program's name, the command's word, and its files, of which only one can be standard input.
fn given_command(rt: &impl Env) -> Option<Command> {
    if cli::is_argument(rt, 2, b"-") && cli::is_argument(rt, 3, b"-") {
        return None;
    }
    let mut text = [0u8; 4096];
    let word = cli::argument(rt, 1, &mut text)?;
    let files = (2..5).take_while(|i| has_argument(rt, *i)).count();
    match (word, files) {
        ("judge", 1) => Some(Command::Judge),
        ("choose", 1) => Some(Command::Choose),
        ("show", 1) => Some(Command::Show),
        ("fit", 2) => Some(Command::Fit),
        ("compare", 2) => Some(Command::Compare),
        _ => None,
    }
}

fn print_usage(rt: &impl Eprint) -> io::Result<()> {
    rt.eprintln(
        "usage: patcher judge JOB
       patcher choose JOB
       patcher fit JOB SHEET
       patcher compare JOB SHEET
       patcher show JOB
One of the files can be -, standard input.",
    )
}

// Prints the reply. A job that fills the buffer is refused with 2, as 01 has it for `rectify`, since what stands behind is not known; read
// whole it might have its fields in order and get 3, for a count. A sheet that fills the buffer is cut short, so the service refuses it
// with 7. Of the right shape only one over fifteen nets, with notes, is as long; read whole it would get 8, as no job has so many candidates.
fn answer(rt: &impl Print, command: Command, job: &[u8], sheet: &[u8]) -> Result<(), Failure> {
    if 65535 < job.len() {
        return Err(Failure::Refused(Refusal::Fields));
    }
    match command {
        Command::Judge => sheets::write_judged(rt, job),
        Command::Choose => sheets::write_chosen(rt, job),
        Command::Fit => fit::write_netlist(rt, job, sheet),
        Command::Compare => compare::print_comparison(rt, job, sheet),
        Command::Show => show::print_job(rt, job),
    }
}

// Says that the command refuses, where it says so.
fn print_refusal(rt: &(impl Print + Eprint), command: Command, refusal: Refusal) -> io::Result<()> {
    match command {
        Command::Compare => println!(rt; "{refusal}"),
        _ => eprintln!(rt; "{refusal}"),
    }
}

// Prints the reply, or that the command refuses.
fn reply(rt: &(impl Print + Eprint), command: Command, job: &[u8], sheet: &[u8]) -> io::Result<()> {
    match answer(rt, command, job, sheet) {
        Ok(()) => Ok(()),
        Err(Failure::Refused(refusal)) => print_refusal(rt, command, refusal),
        Err(Failure::Unwritten(error)) => Err(error),
    }
}

// The sheet that argument 3 names; no bytes where there is no such argument.
fn read_sheet(rt: &impl Runtime, buf: &mut [u8]) -> Result<usize, cli::Unread>
    ensures { IfOk result (λ len. IsPrefixLen len buf.new) }
{
    if has_argument(rt, 3) {
        cli::read_argument(rt, 3, buf)
    } else {
        Ok(0)
    }
}

// Reads the command's files and answers.
fn run(rt: &impl Runtime, command: Command) -> Result<(), cli::Unread> {
    let mut job = [0u8; 65536];
    let mut sheet = [0u8; 65536];
    let m = cli::read_argument(rt, 2, &mut job)?;
    let n = read_sheet(rt, &mut sheet)?;
    cli::check_written(rt, reply(rt, command, &job[..m], &sheet[..n]));
    Ok(())
}

fn main(rt: HostRuntime) -> io::Result<()> {
    let Some(command) = given_command(&rt) else {
        return print_usage(&rt);
    };
    // Standard error has told what could not be read.
    let _ = run(&rt, command);
    Ok(())
}

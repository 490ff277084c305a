// The line that answers a request. Behind the replies stand hashes of the buffers: all of each, lent or not.
use super::reply::{print_chosen, print_compared, print_fitted, print_judged};
use super::request::Request;
use engine::{LONGEST_CHOOSE, LONGEST_FIT, LONGEST_JUDGE};
use samples::{hash, new_list};
use std::io;

pub(super) fn answer(rt: &impl Print, request: Request) -> io::Result<()> {
    match request {
        Request::Judge {
            judge_room,
            choose_room,
            job,
        } => answer_judge(rt, judge_room, choose_room, job),
        Request::Compare { job, sheet } => answer_compare(rt, job, sheet),
        Request::Order {
            first,
            second,
            third,
        } => answer_order(rt, [first, second, third]),
        Request::Fit { room, job, sheet } => answer_fit(rt, room, job, sheet),
        Request::Row { first, second } => answer_row(rt, [first, second]),
    }
}

// A buffer of judge's or choose's sheets, with the pattern.
fn new_sheet() -> [u8; 2200] {
    new_list(11)
}

fn answer_judge(
    rt: &impl Print,
    judge_room: usize,
    choose_room: usize,
    job: &[u8],
) -> io::Result<()> {
    let mut judged = new_sheet();
    let mut chosen = new_sheet();
    print!(rt; "judge")?;
    print_judged(rt, job, &mut judged[..judge_room.min(2200)])?;
    print!(rt; " {} choose", hash(0, &judged))?;
    print_chosen(rt, job, &mut chosen[..choose_room.min(2200)])?;
    println!(rt; " {}", hash(0, &chosen))
}

fn answer_compare(rt: &impl Print, job: &[u8], sheet: &[u8]) -> io::Result<()> {
    print!(rt; "compare")?;
    print_compared(rt, job, sheet)?;
    println!(rt)
}

// A job judged and chosen for.
fn judge_and_choose(
    rt: &impl Print,
    job: &[u8],
    judged: &mut [u8; 2200],
    chosen: &mut [u8; 2200],
) -> io::Result<()> {
    print_judged(rt, job, &mut judged[..LONGEST_JUDGE])?;
    print_chosen(rt, job, &mut chosen[..LONGEST_CHOOSE])?;
    Ok(())
}

fn answer_order(rt: &impl Print, jobs: [&[u8]; 3]) -> io::Result<()> {
    let mut judged = new_sheet();
    let mut chosen = new_sheet();
    print!(rt; "order")?;
    for job in jobs {
        judge_and_choose(rt, job, &mut judged, &mut chosen)?;
    }
    println!(rt; " {} {}", hash(0, &judged), hash(0, &chosen))
}

fn answer_fit(rt: &impl Print, room: usize, job: &[u8], sheet: &[u8]) -> io::Result<()> {
    let mut netlist: [u8; 4200] = new_list(11);
    print!(rt; "fit")?;
    print_fitted(rt, job, sheet, &mut netlist[..room.min(4200)])?;
    println!(rt; " {}", hash(0, &netlist))
}

// A job chosen for, then fitted and compared with the sheet that choose wrote.
fn choose_and_fit(
    rt: &impl Print,
    job: &[u8],
    chosen: &mut [u8; 4200],
    netlist: &mut [u8; 4200],
) -> io::Result<()> {
    let len = print_chosen(rt, job, &mut chosen[..LONGEST_CHOOSE])?;
    let sheet = &chosen[..len.min(4200)];
    print_fitted(rt, job, sheet, &mut netlist[..LONGEST_FIT])?;
    print_compared(rt, job, sheet)
}

fn answer_row(rt: &impl Print, jobs: [&[u8]; 2]) -> io::Result<()> {
    let mut chosen: [u8; 4200] = new_list(11);
    let mut netlist: [u8; 4200] = new_list(11);
    print!(rt; "row")?;
    for job in jobs {
        choose_and_fit(rt, job, &mut chosen, &mut netlist)?;
    }
    println!(rt; " {} {}", hash(0, &chosen), hash(0, &netlist))
}

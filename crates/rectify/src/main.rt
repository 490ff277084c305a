// Reads a job from standard input and prints its verdict: a patch with its cost, support, table, vectors and notes, an unfixable input
// or a blind reading with the vectors, or `refused` and the number. The text is made by `report::rectify_text`. Where standard
// input cannot be read, a line on standard error says so and nothing is printed.
#![tactic(auto)]

// The text of the job's bytes, to standard output.
fn print_verdict(rt: &(impl Print + Eprint + Alloc), job: &[u8]) {
    let mut text = [0u8; report::LONGEST_TEXT];
    let len = report::rectify_text(job, &mut text);
    cli::write_reply(rt, &text[..len]);
}

fn main(rt: HostRuntime) {
    let mut job = [0u8; 65536];
    if let Ok(len) = cli::read_standard(&rt, &mut job) {
        print_verdict(&rt, &job[..len]);
    }
}

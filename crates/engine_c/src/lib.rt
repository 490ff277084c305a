// The engine's services for a C program: tools/bench measures them there. What a C caller owes is said in records_c.
#![tactic(auto)]

ghost use Rattle.std.specs.Prelude.{◌≡◌};
ghost use Rattle.engine.specs.Verdict.{judged_bytes, chosen_bytes};
ghost use Rattle.engine.specs.Reply.{judge_reply, choose_reply, compare_reply, fit_reply, fitted_buffer};
ghost use Rattle.records.specs.Service.{number_of};
ghost use Rattle.engine_c.specs.Difference.{differs_of, input_of};

// Leaves the number of a refusal in number; the length is 0.
fn refused(refusal: records::Refusal, number: &mut u32) -> usize
    ensures length { result ≡ 0 }
    ensures number { number.new ≡ number_of refusal }
{
    *number = u32::from(u8::from(refusal));
    0
}

// engine::judge: the length of the sheet is returned, 0 on refusal, and the reply's number is left in number, 0 where the job is
// accepted: a refusal alters number and no byte of reply. The verdict and its value stand in the sheet.
#[unsafe(no_mangle)]
pub extern "C" fn engine_judge(job: &[u8], reply: &mut [u8], number: &mut u32) -> usize
    ensures length { result ≡ (judge_reply reply.old job.now).len }
    ensures number { number.new ≡ (judge_reply reply.old job.now).number }
    ensures lent { reply.new ≡ judged_bytes reply.old job.now }
{
    match engine::judge(job, reply) {
        Ok(sheet) => {
            *number = 0;
            sheet.len
        }
        Err(refusal) => refused(refusal, number),
    }
}

// engine::choose, alike; by itself, since C calls it by its name.
#[unsafe(no_mangle)]
pub extern "C" fn engine_choose(job: &[u8], reply: &mut [u8], number: &mut u32) -> usize
    ensures length { result ≡ (choose_reply reply.old job.now).len }
    ensures number { number.new ≡ (choose_reply reply.old job.now).number }
    ensures lent { reply.new ≡ chosen_bytes reply.old job.now }
{
    match engine::choose(job, reply) {
        Ok(sheet) => {
            *number = 0;
            sheet.len
        }
        Err(refusal) => refused(refusal, number),
    }
}

// engine::fit: the length of the patched netlist is returned, 0 on refusal, and the reply's number is left in number, 0 where job and
// sheet are accepted: a refusal alters number and no byte of reply.
#[unsafe(no_mangle)]
pub extern "C" fn engine_fit(job: &[u8], sheet: &[u8], reply: &mut [u8], number: &mut u32) -> usize
    ensures length { result ≡ (fit_reply reply.old job.now sheet.now).len }
    ensures number { number.new ≡ (fit_reply reply.old job.now sheet.now).number }
    ensures lent { reply.new ≡ fitted_buffer reply.old job.now sheet.now }
{
    match engine::fit(job, sheet, reply) {
        Ok(len) => {
            *number = 0;
            len
        }
        Err(refusal) => refused(refusal, number),
    }
}

// engine::compare: the reply's number is returned, 0 where job and sheet are accepted; differs gets 1 where the outputs differ, and
// input the smallest input at which they do; both get 0 otherwise.
#[unsafe(no_mangle)]
pub extern "C" fn engine_compare(job: &[u8], sheet: &[u8], differs: &mut u32, input: &mut u32) -> u8
    ensures number { result ≡ (compare_reply job.now sheet.now).number }
    ensures differs { differs.new ≡ differs_of (compare_reply job.now sheet.now).result }
    ensures input { input.new ≡ input_of (compare_reply job.now sheet.now).result }
{
    *differs = 0;
    *input = 0;
    match engine::compare(job, sheet) {
        Ok(engine::Comparison::Equal) => 0,
        Ok(engine::Comparison::Differs(found)) => {
            *differs = 1;
            *input = found.input;
            0
        }
        Err(refusal) => refusal.into(),
    }
}

// Each service called and its reply printed: the number, the length of what it wrote, and what it found.
use records::Refusal;
use std::io;

// The number of a refusal, and that nothing was written.
fn print_refusal(rt: &impl Print, refusal: Refusal) -> io::Result<()> {
    print!(rt; " {} 0", u8::from(refusal))
}

// Judges with these bytes lent.
pub(super) fn print_judged(rt: &impl Print, job: &[u8], lent: &mut [u8]) -> io::Result<()> {
    match engine::judge(job, lent) {
        Ok(sheet) => match sheet.verdict {
            engine::Judgement::Fixable => print!(rt; " 0 {} fixable", sheet.len),
            engine::Judgement::Unfixable(unfixable) => {
                print!(rt; " 0 {} unfixable {}", sheet.len, unfixable.input)
            }
        },
        Err(refusal) => {
            print_refusal(rt, refusal)?;
            print!(rt; " declined")
        }
    }
}

// Chooses with these bytes lent; the sheet's length.
pub(super) fn print_chosen(rt: &impl Print, job: &[u8], lent: &mut [u8]) -> io::Result<usize> {
    match engine::choose(job, lent) {
        Ok(sheet) => {
            match sheet.verdict {
                engine::Choice::Patch(patch) => print!(rt;
                    " 0 {} patch {}",
                    sheet.len, patch.cost
                )?,
                engine::Choice::Blind(blind) => {
                    print!(rt; " 0 {} blind {}", sheet.len, blind.reading)?;
                }
            }
            Ok(sheet.len)
        }
        Err(refusal) => {
            print_refusal(rt, refusal)?;
            print!(rt; " declined")?;
            Ok(0)
        }
    }
}

// Fits with these bytes lent.
pub(super) fn print_fitted(
    rt: &impl Print,
    job: &[u8],
    sheet: &[u8],
    lent: &mut [u8],
) -> io::Result<()> {
    match engine::fit(job, sheet, lent) {
        Ok(len) => print!(rt; " 0 {len}"),
        Err(refusal) => print_refusal(rt, refusal),
    }
}

pub(super) fn print_compared(rt: &impl Print, job: &[u8], sheet: &[u8]) -> io::Result<()> {
    match engine::compare(job, sheet) {
        Ok(engine::Comparison::Equal) => print!(rt; " 0 equal"),
        Ok(engine::Comparison::Differs(differs)) => print!(rt; " 0 differs {}", differs.input),
        Err(refusal) => print!(rt; " {} declined", u8::from(refusal)),
    }
}

// The sheets of a job: judge's and choose's. Each goes to standard output, of which a refusal has none. Costs what the service costs.
// (One function for both would take the service and the size of its sheet, and be no shorter.)
use super::failure::Failure;
use engine::{LONGEST_CHOOSE, LONGEST_JUDGE};

pub(super) fn write_judged(rt: &impl Print, job: &[u8]) -> Result<(), Failure> {
    let mut sheet = [0u8; LONGEST_JUDGE];
    let judged = engine::judge(job, &mut sheet)?;
    rt.write_all(&sheet[..judged.len])?;
    Ok(())
}

pub(super) fn write_chosen(rt: &impl Print, job: &[u8]) -> Result<(), Failure> {
    let mut sheet = [0u8; LONGEST_CHOOSE];
    let chosen = engine::choose(job, &mut sheet)?;
    rt.write_all(&sheet[..chosen.len])?;
    Ok(())
}

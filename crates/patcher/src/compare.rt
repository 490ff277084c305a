// Whether the old circuit of a job, driven by a sheet's table, has the golden outputs.
use super::failure::Failure;

// The comparison's line. Costs what compare costs.
pub(super) fn print_comparison(rt: &impl Print, job: &[u8], sheet: &[u8]) -> Result<(), Failure> {
    match engine::compare(job, sheet)? {
        engine::Comparison::Equal => println!(rt; "equal")?,
        engine::Comparison::Differs(differs) => println!(rt; "differs {}", differs.input)?,
    }
    Ok(())
}

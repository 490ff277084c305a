// The patched netlist of a job and a sheet.
use super::failure::Failure;
use engine::LONGEST_FIT;

// The netlist's fields to standard output, of which a refusal has none. Costs what fit costs.
pub(super) fn write_netlist(rt: &impl Print, job: &[u8], sheet: &[u8]) -> Result<(), Failure> {
    let mut netlist = [0u8; LONGEST_FIT];
    let len = engine::fit(job, sheet, &mut netlist)?;
    rt.write_all(&netlist[..len])?;
    Ok(())
}

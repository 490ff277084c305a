// The service read for callers with plain parameters: a job's parts by value.
ghost use Rattle.std.specs.Prelude.{◌≡◌};
ghost use Rattle.records.specs.Service.{load_told, loaded};

use super::columns::NO_GATES;
use super::gate::Gate;
use super::job::Counts;
use super::limits::{CANDIDATES, GATES, OUTPUTS};
use super::reading::read;
use super::refusal::Refusal;

// A job's parts by value: as many as the counts say stand at the starts of the places.
// Arrays with counts, as nothing here uses the heap; and no invariant, as it is public and whoever builds one owes nothing.
#[derive(Clone, Copy)]
pub struct JobParts {
    pub counts: Counts,
    pub old: [Gate; GATES],
    pub outputs: [u16; OUTPUTS],
    pub golden: [Gate; GATES],
    pub goldens: [u16; OUTPUTS],
    pub nets: [u16; CANDIDATES],
    pub weights: [u16; CANDIDATES],
}

// The service read into places of its own. It takes read's time and one copy of the parts.
pub fn load(job: &[u8]) -> Result<JobParts, Refusal>
    ensures { load_told result ≡ loaded job.now }
{
    let mut old = NO_GATES;
    let mut outputs = [0u16; OUTPUTS];
    let mut golden = NO_GATES;
    let mut goldens = [0u16; OUTPUTS];
    let mut nets = [0u16; CANDIDATES];
    let mut weights = [0u16; CANDIDATES];
    let counts = read(
        job,
        &mut old,
        &mut outputs,
        &mut golden,
        &mut goldens,
        &mut nets,
        &mut weights,
    )?;
    Ok(JobParts {
        counts,
        old,
        outputs,
        golden,
        goldens,
        nets,
        weights,
    })
}

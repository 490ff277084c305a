// Why a call is declined, and document 01's number for it.
ghost use Rattle.std.specs.Prelude.{◌≡◌};
ghost use Rattle.records.specs.Service.{number_of, Numbers};

use std::error::Error;
use std::fmt;

// The reasons in the order of their numbers, from 1 on. A call tests each over the whole job or sheet before the next, and gives the
// first that applies.
#[derive(Clone, Copy, Debug, PartialEq, Eq)]
pub enum Refusal {
    // A lent buffer, or lent places, too small for the longest reply.
    Room,
    // The bytes are not a job's six fields.
    Fields,
    // A count outside its range, or above its places.
    Counts,
    // A gate that may not drive its net.
    Gates,
    // An output net that there is not, or output counts that differ.
    Outputs,
    // Candidates that do not ascend, are no nets, or are targets or led to by one.
    Candidates,
    // The bytes are not a patch sheet.
    Sheet,
    // A support, an entry or a cost that does not fit the job.
    Patch,
    // A patched netlist of more than 400 gates.
    Size,
}

impl From<Refusal> for u8 {
    ghost from_gives = { Numbers };

    #[tactic(auto, unfolding(crate::specs::Service::number_of))]
    fn from(refusal: Refusal) -> u8 {
        match refusal {
            Refusal::Room => 1,
            Refusal::Fields => 2,
            Refusal::Counts => 3,
            Refusal::Gates => 4,
            Refusal::Outputs => 5,
            Refusal::Candidates => 6,
            Refusal::Sheet => 7,
            Refusal::Patch => 8,
            Refusal::Size => 9,
        }
    }
}

impl fmt::Display for Refusal {
    ghost use Rattle.std.specs.Prelude.{Some};
    ghost use Rattle.records.specs.Service.{refusal_text};

    ghost output = { λ e. Some (refusal_text e) };

    fn fmt<W: fmt::Write>(&self, f: &mut fmt::Formatter<W>) -> fmt::Result {
        write!(f, "refused {}", u8::from(*self))
    }
}

impl Error for Refusal {}

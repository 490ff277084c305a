// Candidates in a job's bytes.
ghost use Rattle.std.specs.Prelude.{◌≡◌, ◌≤◌};
ghost use Rattle.records.specs.Job.{candidates_of};
ghost use Rattle.records.specs.Inner.{check_of, unmarked_ascending};

use super::field::{Check, word_at};
use super::limits::{CANDIDATE_SIZE, NETS};

// Whether the candidates ascend, are below nets and have no mark.
pub(super) fn check_candidates(s: &[u8], nets: usize, marks: &[u8; NETS]) -> Check
    requires { nets ≤ 424 }
    ensures { result ≡ check_of (unmarked_ascending nets marks.now (candidates_of s.now)) }
{
    let count = s.len() / CANDIDATE_SIZE;
    let mut least = 0usize;
    // By index: numbers are read at positions, and three tests may end the walk.
    for i in 0..count {
        let net = word_at(s, CANDIDATE_SIZE * i);
        if net < least {
            return Check::Failed;
        }
        if nets <= net {
            return Check::Failed;
        }
        if marks[net] != 0 {
            return Check::Failed;
        }
        least = net + 1;
    }
    Check::Passed
}

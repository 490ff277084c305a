// Why a command gives no reply.
use records::Refusal;
use std::io;

#[derive(Drop)]
pub enum Failure {
    // The service refuses.
    Refused(Refusal),
    // Standard output does not take the reply.
    Unwritten(io::Error),
}

impl From<Refusal> for Failure {
    fn from(refusal: Refusal) -> Failure {
        Failure::Refused(refusal)
    }
}

impl From<io::Error> for Failure {
    fn from(error: io::Error) -> Failure {
        Failure::Unwritten(error)
    }
}

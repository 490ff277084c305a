// What a call asks for.
use samples::Call;

// The services, each with what its call brings.
#[derive(Clone, Copy)]
pub enum Request<'a> {
    // Read, with as many places lent as short says.
    // (short is a byte, as the call has it.)
    Read { short: u8, job: &'a [u8] },
    // Write, with what the call says: the buffer's room, the counts and the lists.
    Write(Call<'a>),
    // Read a sheet, with what the call says: the counts, the candidates and the sheet.
    Sheet(Call<'a>),
    // Read, and write what was read.
    Again { job: &'a [u8] },
    // Read twice, the second job into the places that the first filled.
    After { first: &'a [u8], second: &'a [u8] },
}

impl<'a> Request<'a> {
    // What the call asks for; none where it is too short, or there is no such service.
    // An Option and no TryFrom, since no reason is told where there is none.
    pub(super) fn parse(mut call: Call<'a>) -> Option<Request<'a>> {
        match call.service {
            1 => {
                let [short, job @ ..] = call.bytes else {
                    return None;
                };
                Some(Request::Read { short: *short, job })
            }
            2 => Some(Request::Write(call)),
            3 => Some(Request::Sheet(call)),
            4 => Some(Request::Again { job: call.bytes }),
            5 => {
                let len = call.word()?;
                Some(Request::After {
                    first: call.part(len),
                    second: call.bytes,
                })
            }
            _ => None,
        }
    }
}

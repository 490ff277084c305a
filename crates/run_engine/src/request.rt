// What a call asks for.
use samples::Call;

// The services, each with what its call brings.
#[derive(Clone, Copy)]
pub enum Request<'a> {
    // Judge, then choose, with so many bytes of a buffer lent to each.
    Judge {
        judge_room: usize,
        choose_room: usize,
        job: &'a [u8],
    },
    Compare {
        job: &'a [u8],
        sheet: &'a [u8],
    },
    // Judge and choose on three jobs in turn, with the same buffers.
    Order {
        first: &'a [u8],
        second: &'a [u8],
        third: &'a [u8],
    },
    // Fit, with so many bytes of a buffer lent.
    Fit {
        room: usize,
        job: &'a [u8],
        sheet: &'a [u8],
    },
    // Choose, fit and compare on two jobs in turn, with the same buffers.
    Row {
        first: &'a [u8],
        second: &'a [u8],
    },
}

impl<'a> Request<'a> {
    // What the call asks for; none where it is too short, or there is no such service.
    // An Option and no TryFrom, since no reason is told where there is none.
    pub(super) fn parse(mut call: Call<'a>) -> Option<Request<'a>> {
        match call.service {
            1 => Some(Request::Judge {
                judge_room: call.word()?,
                choose_room: call.word()?,
                job: call.bytes,
            }),
            2 => {
                let len = call.word()?;
                Some(Request::Compare {
                    job: call.part(len),
                    sheet: call.bytes,
                })
            }
            3 => {
                let first = call.word()?;
                let second = call.word()?;
                Some(Request::Order {
                    first: call.part(first),
                    second: call.part(second),
                    third: call.bytes,
                })
            }
            4 => {
                let room = call.word()?;
                let len = call.word()?;
                Some(Request::Fit {
                    room,
                    job: call.part(len),
                    sheet: call.bytes,
                })
            }
            5 => {
                let len = call.word()?;
                Some(Request::Row {
                    first: call.part(len),
                    second: call.bytes,
                })
            }
            _ => None,
        }
    }
}

// The record library's read_columns and write_columns for a C program: tools/bench measures them there. The seven counts of a job go in
// a row: inputs, targets, old gates and outputs, golden gates and outputs, candidates. A slice is a pointer and a length, two
// arguments. What the caller owes, since nothing checks a C call: each pointer, also that of an empty slice, is aligned and not null, as
// many elements as the length says can be read there (and written, where the slice is `&mut`), `counts` points to seven numbers and
// `number` to one, and what is lent `&mut` overlaps nothing else that is lent.
#![tactic(auto)]

ghost use Rattle.std.specs.Prelude.{◌≡◌};
ghost use Rattle.records.specs.Columns.{side_columns, columns, columns_reply, columns_after, columns_write_reply, columns_written};
ghost use Rattle.records_c.specs.Row.{row_after, row_counts};

// records::read_columns: the reply's number is returned; an accepted job's counts are left in counts, which a refusal keeps.
#[unsafe(no_mangle)]
pub extern "C" fn records_read(
    job: &[u8],
    old_kinds: &mut [u8],
    old_counts: &mut [u8],
    old_slots: &mut [u16],
    old_outputs: &mut [u16],
    golden_kinds: &mut [u8],
    golden_counts: &mut [u8],
    golden_slots: &mut [u16],
    golden_outputs: &mut [u16],
    nets: &mut [u16],
    weights: &mut [u16],
    counts: &mut [usize; 7],
) -> u8
    ensures number { result ≡ (columns_reply
        (columns
        (side_columns old_kinds.old old_counts.old old_slots.old old_outputs.old)
        (side_columns golden_kinds.old golden_counts.old golden_slots.old golden_outputs.old)
        nets.old weights.old)
        job.now).number }
    ensures counted { counts.new ≡ row_after (columns_reply
        (columns
        (side_columns old_kinds.old old_counts.old old_slots.old old_outputs.old)
        (side_columns golden_kinds.old golden_counts.old golden_slots.old golden_outputs.old)
        nets.old weights.old)
        job.now) counts.old }
    ensures lent { columns
        (side_columns old_kinds.new old_counts.new old_slots.new old_outputs.new)
        (side_columns golden_kinds.new golden_counts.new golden_slots.new golden_outputs.new)
        nets.new weights.new
        ≡ columns_after
        (columns
        (side_columns old_kinds.old old_counts.old old_slots.old old_outputs.old)
        (side_columns golden_kinds.old golden_counts.old golden_slots.old golden_outputs.old)
        nets.old weights.old)
        job.now }
{
    let read = records::read_columns(
        job,
        old_kinds,
        old_counts,
        old_slots,
        old_outputs,
        golden_kinds,
        golden_counts,
        golden_slots,
        golden_outputs,
        nets,
        weights,
    );
    match read {
        Ok(c) => {
            *counts = [
                c.inputs,
                c.targets,
                c.old.gates,
                c.old.outputs,
                c.golden.gates,
                c.golden.outputs,
                c.candidates,
            ];
            0
        }
        Err(refusal) => refusal.into(),
    }
}

// records::write_columns of as many parts as counts says: the length of the job is returned, 0 on refusal, and the reply's number is left
// in number, 0 where the parts are accepted. So a refusal alters number, which stands for the reply, and no byte of buf.
#[unsafe(no_mangle)]
pub extern "C" fn records_write(
    counts: &[usize; 7],
    old_kinds: &[u8],
    old_counts: &[u8],
    old_slots: &[u16],
    old_outputs: &[u16],
    golden_kinds: &[u8],
    golden_counts: &[u8],
    golden_slots: &[u16],
    golden_outputs: &[u16],
    nets: &[u16],
    weights: &[u16],
    buf: &mut [u8],
    number: &mut u32,
) -> usize
    ensures length { result ≡ (columns_write_reply (row_counts counts.now)
        (columns
        (side_columns old_kinds.now old_counts.now old_slots.now old_outputs.now)
        (side_columns golden_kinds.now golden_counts.now golden_slots.now golden_outputs.now)
        nets.now weights.now)
        buf.old).len }
    ensures number { number.new ≡ (columns_write_reply (row_counts counts.now)
        (columns
        (side_columns old_kinds.now old_counts.now old_slots.now old_outputs.now)
        (side_columns golden_kinds.now golden_counts.now golden_slots.now golden_outputs.now)
        nets.now weights.now)
        buf.old).number }
    ensures lent { buf.new ≡ columns_written (row_counts counts.now)
        (columns
        (side_columns old_kinds.now old_counts.now old_slots.now old_outputs.now)
        (side_columns golden_kinds.now golden_counts.now golden_slots.now golden_outputs.now)
        nets.now weights.now)
        buf.old }
{
    let all = records::Counts {
        inputs: counts[0],
        targets: counts[1],
        old: records::SideCounts {
            gates: counts[2],
            outputs: counts[3],
        },
        golden: records::SideCounts {
            gates: counts[4],
            outputs: counts[5],
        },
        candidates: counts[6],
    };
    let written = records::write_columns(
        all,
        old_kinds,
        old_counts,
        old_slots,
        old_outputs,
        golden_kinds,
        golden_counts,
        golden_slots,
        golden_outputs,
        nets,
        weights,
        buf,
    );
    match written {
        Ok(len) => {
            *number = 0;
            len
        }
        Err(refusal) => {
            *number = u32::from(u8::from(refusal));
            0
        }
    }
}

// Reads a simulator's table of gate primitives over 0, 1 and x, one row a line, as `nand 0 1 = 1`, and prints each row over 0 and 1 again
// with the value that the record library gives, and each row, also those with x, with what the engine knows of it, where x is not yet
// known. The table is the file stdin; what is printed must be the table's own rows.
#![tactic(auto)]

use std::io;

// The primitives, with the numbers that the libraries have for their kinds.
#[derive(Clone, Copy)]
enum Kind {
    Buf = 2,
    Not = 3,
    And = 4,
    Nand = 5,
    Or = 6,
    Nor = 7,
    Xor = 8,
    Xnor = 9,
}

impl Kind {
    // The primitive of this name.
    // An Option and no TryFrom, since no reason is told where there is none.
    fn named(name: &[u8]) -> Option<Kind> {
        match name {
            b"buf" => Some(Kind::Buf),
            b"not" => Some(Kind::Not),
            b"and" => Some(Kind::And),
            b"nand" => Some(Kind::Nand),
            b"or" => Some(Kind::Or),
            b"nor" => Some(Kind::Nor),
            b"xor" => Some(Kind::Xor),
            b"xnor" => Some(Kind::Xnor),
            _ => None,
        }
    }
}

// A gate with its operands as the libraries take them: 2, not yet known, for x, and 0 where there is none.
// Operands are numbers, as value and ternary_value ask for them.
#[derive(Clone, Copy)]
struct Gate {
    kind: Kind,
    count: u8,
    operands: [u8; 4],
    has_x: bool,
}

impl Gate {
    // The gate of a row: a name, one to four operands, the equals sign and the value, with a space before each but the name.
    // An Option, as of a name.
    fn parse(row: &[u8]) -> Option<Gate> {
        let end = row.iter().position(|b| *b == b' ')?;
        let kind = Kind::named(&row[..end])?;
        let [text @ .., _, _, _, _] = &row[end..] else {
            return None;
        };
        let count = match text.len() {
            2 => 1,
            4 => 2,
            6 => 3,
            8 => 4,
            _ => return None,
        };
        let mut operands = [0u8; 4];
        for (operand, pair) in operands.iter_mut().zip(text.chunks_exact(2)) {
            *operand = match pair {
                [_, b'1'] => 1,
                [_, b'x'] => 2,
                _ => 0,
            };
        }
        Some(Gate {
            kind,
            count,
            operands,
            has_x: text.contains(&b'x'),
        })
    }
}

// The row up to its value, and this one.
fn print_value(rt: &impl Print, row: &[u8], value: u8) -> io::Result<()> {
    let [front @ .., _] = row else {
        return Ok(());
    };
    rt.write_all(front)?;
    match value {
        0 => println!(rt; "0"),
        1 => println!(rt; "1"),
        _ => println!(rt; "x"),
    }
}

// A row with the library's value where no operand is x, and with the engine's.
fn print_row(rt: &impl Print, row: &[u8]) -> io::Result<()> {
    let Some(gate) = Gate::parse(row) else {
        return Ok(());
    };
    let kind = gate.kind as u8;
    if !gate.has_x {
        print_value(rt, row, records::value(kind, gate.count, gate.operands))?;
    }
    print_value(
        rt,
        row,
        engine::ternary_value(kind, gate.count, gate.operands),
    )
}

// The rows of a table, each with a line feed behind.
fn print_rows(rt: &impl Print, table: &[u8]) -> io::Result<()> {
    for line in table.split_inclusive(|b| *b == b'\n') {
        if let Some(row) = line.strip_suffix(b"\n") {
            print_row(rt, row)?;
        }
    }
    Ok(())
}

// Where standard input cannot be read to its end, the rows up to there.
fn main(rt: HostRuntime) -> io::Result<()> {
    let mut table = [0u8; 65536];
    let (Ok(len) | Err(cli::Unread { len })) = cli::read_standard(&rt, &mut table);
    print_rows(&rt, &table[..len])
}

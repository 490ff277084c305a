// The ranges' ends of document 01, "Nets and gates", and the length of the longest job; specs/Refusal.antt names them for the contracts.
pub const INPUTS: usize = 20;

pub const TARGETS: usize = 4;

pub const GATES: usize = 400;
// The operand slots of a gate (card 6 of document 02), and the bytes that it takes.
pub const SLOTS: usize = 4;

pub const GATE_SIZE: usize = 10;

pub const OUTPUTS: usize = 32;

// The candidates, and the bytes that each takes: net and weight.
pub const CANDIDATES: usize = 10;

pub const CANDIDATE_SIZE: usize = 4;
// The nets of an old netlist.
pub const NETS: usize = INPUTS + TARGETS + GATES;

pub const LONGEST_JOB: usize = 8188;

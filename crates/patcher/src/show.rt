// What a job has, in lines: its counts, and under each the gates, nets or candidates.
use super::failure::Failure;
use records::{CANDIDATES, GATES, OUTPUTS};
use std::io;

// The names of the gates' kinds, by their numbers.
const KINDS: [&str; 10] = [
    "zero", "one", "buf", "not", "and", "nand", "or", "nor", "xor", "xnor",
];

// The gate that drives net, with the operands that it uses.
fn print_gate(rt: &impl Print, net: usize, gate: records::Gate) -> io::Result<()> {
    let kind = KINDS.get(usize::from(gate.kind)).unwrap_or(&"unknown");
    print!(rt; "  net {net} {kind}")?;
    for slot in records::slots_of(gate).iter().take(usize::from(gate.count)) {
        print!(rt; " {slot}")?;
    }
    println!(rt)
}

// A netlist's counts, its gates from net base on, and its outputs. A job has at most 20 inputs and 4 targets, so no net wraps.
fn print_side(
    rt: &impl Print,
    name: &str,
    base: usize,
    gates: &[records::Gate],
    outputs: &[u16],
) -> io::Result<()> {
    println!(rt; "{name} gates {}", gates.len())?;
    for (i, gate) in gates.iter().enumerate() {
        print_gate(rt, base.wrapping_add(i), *gate)?;
    }
    println!(rt; "{name} outputs {}", outputs.len())?;
    for output in outputs {
        println!(rt; "  net {output}")?;
    }
    Ok(())
}

fn print_candidates(rt: &impl Print, nets: &[u16], weights: &[u16]) -> io::Result<()> {
    println!(rt; "candidates {}", nets.len())?;
    for (net, weight) in nets.iter().zip(weights) {
        println!(rt; "  net {net} weight {weight}")?;
    }
    Ok(())
}

// The job's lines to standard output; or why not: the job is refused, or they cannot be written.
pub(super) fn print_job(rt: &impl Print, job: &[u8]) -> Result<(), Failure> {
    let parts = records::load(job)?;
    let counts = parts.counts;
    println!(rt; "inputs {}", counts.inputs)?;
    println!(rt; "targets {}", counts.targets)?;
    let base = counts.inputs.wrapping_add(counts.targets);
    let gates = &parts.old[..counts.old.gates.min(GATES)];
    let outputs = &parts.outputs[..counts.old.outputs.min(OUTPUTS)];
    print_side(rt, "old", base, gates, outputs)?;
    let gates = &parts.golden[..counts.golden.gates.min(GATES)];
    let outputs = &parts.goldens[..counts.golden.outputs.min(OUTPUTS)];
    print_side(rt, "golden", counts.inputs, gates, outputs)?;
    let count = counts.candidates.min(CANDIDATES);
    print_candidates(rt, &parts.nets[..count], &parts.weights[..count])?;
    Ok(())
}

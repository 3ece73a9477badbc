// The second pass.

ghost use Rattle.std.specs.Prelude.{◌≡◌, ℕ, Ok};
ghost use Rattle.std.specs.Option.{option_map};
ghost use Rattle.asm_statements.specs.Orders.{order_of};
ghost use Rattle.asm_statements.specs.Orders as orders;
ghost use Rattle.rv_asm.specs.Gives.{Returns, Leaves, GivesAt};
ghost use Rattle.rv_asm.specs.Labels.{addresses_in};
ghost use Rattle.rv_asm.specs.Second.{output_of, open_segment, finished, emitted_at, nothing};
ghost use Rattle.rv_asm.specs.Kept.{kept_orders, second_kept};
ghost use Rattle.rv_asm.specs.Second as second;

use crate::coding::{put_statement, resolved};
use crate::faults::{AsmFault, Stop, fault_at};
use crate::first::Kept;
use crate::labels::Labels;
use asm_lines::Kind;
use asm_statements::Statement;
use executable::{Program, Segment};
use std::alloc::Global;

/// The segment that grows.
#[derive(Drop)]
pub struct Open {
    pub addr: u32,
    pub bytes: Vec<u8>,
}

/// The segments that are whole, and the one that grows.
#[derive(Drop)]
pub struct Output {
    pub program: Program,
    pub here: Option<Open>,
}

/// All segments.
pub fn finished(output: Output) -> Result<Program, Stop>
    ensures { Returns (λ program. program) result (Ok (finished (output_of output))) }
{
    let Output { mut program, here } = output;
    match here {
        None => Ok(program),
        Some(segment) => match add_segment(&mut program, segment) {
            Ok(()) => Ok(program),
            Err(stop) => Err(stop),
        },
    }
}

fn add_segment(program: &mut Program, segment: Open) -> Result<(), Stop>
    ensures { Leaves result program.new (Ok (second.with_segment program.old (open_segment segment))) }
{
    let Open { addr, bytes } = segment;
    match program.push(Segment::new(addr, bytes)) {
        Ok(()) => Ok(()),
        Err(_) => Err(Stop::Memory),
    }
}

fn begun(alloc: Global, output: &mut Output, address: u32) -> Result<(), Stop>
    ensures { Leaves result (output_of output.new) (Ok (second.begun (output_of output.old) address)) }
{
    let open = Open {
        addr: address,
        bytes: Vec::new(alloc),
    };
    match output.here.replace(open) {
        None => Ok(()),
        Some(segment) => add_segment(&mut output.program, segment),
    }
}

#[tactic(auto, unfolding(crate::specs::Second::emitted_at))]
fn entered(labels: &Labels<'_>, output: &mut Output, here: u64, name: &[u8]) -> Result<(), Stop>
    ensures { Leaves result (output_of output.new) (emitted_at (addresses_in labels.now) here (output_of output.old) (orders.Entry name.now)) }
{
    let Some(address) = labels.address_of(name) else {
        return Err(Stop::Fault(Kind::UnknownLabel));
    };
    output.program.entry = address;
    Ok(())
}

// The bytes of a statement that stands here, at the end of the segment that grows, if one does.
fn appended(
    labels: &Labels<'_>,
    output: &mut Output,
    here: u64,
    statement: Statement<'_>,
) -> Result<(), Stop>
    ensures { Leaves result (output_of output.new) (second.appended (addresses_in labels.now) here (output_of output.old) (order_of statement.entry)) }
{
    match resolved(labels, here, statement) {
        Err(kind) => Err(Stop::Fault(kind)),
        Ok(known) => put_here(labels, &mut output.here, known),
    }
}

fn put_here(labels: &Labels<'_>, here: &mut Option<Open>, known: Statement<'_>) -> Result<(), Stop>
    ensures { Leaves result (option_map open_segment here.new) (second.grown_by (addresses_in labels.now) (option_map open_segment here.old) (order_of known.entry)) }
{
    match here {
        None => Ok(()),
        Some(segment) => put_statement(&mut segment.bytes, labels, known),
    }
}

#[tactic(auto, unfolding(crate::specs::Second::emitted_at))]
fn emitted(
    alloc: Global,
    labels: &Labels<'_>,
    output: &mut Output,
    here: u64,
    statement: Statement<'_>,
) -> Result<(), Stop>
    ensures { Leaves result (output_of output.new) (emitted_at (addresses_in labels.now) here (output_of output.old) (order_of statement.entry)) }
{
    match statement {
        Statement::Begin(address) => begun(alloc, output, address),
        Statement::Entry(name) => entered(labels, output, here, name),
        Statement::Plain(_) => appended(labels, output, here, statement),
        Statement::JumpTo { .. } => appended(labels, output, here, statement),
        Statement::BranchTo { .. } => appended(labels, output, here, statement),
        Statement::LoadWide { .. } => appended(labels, output, here, statement),
        Statement::LoadAddress { .. } => appended(labels, output, here, statement),
        Statement::Cells(..) => appended(labels, output, here, statement),
        Statement::Zeros(_) => appended(labels, output, here, statement),
    }
}

/// The output after all that the first pass has kept.
pub fn second_pass(
    alloc: Global,
    labels: &Labels<'_>,
    kept: &[Kept<'_>],
) -> Result<Output, AsmFault>
    ensures { GivesAt output_of result (second_kept (addresses_in labels.now) nothing (kept_orders kept.now)) }
{
    let mut output = Output {
        program: Program::new(alloc, 0),
        here: None,
    };
    for item in kept {
        match emitted(alloc, labels, &mut output, item.here, item.statement) {
            Ok(()) => {}
            Err(stop) => return Err(fault_at(item.line, stop)),
        }
    }
    Ok(output)
}

ghost use Rattle.std.specs.Prelude.{◌≡◌, IfOk};
ghost use Rattle.std.specs.Int.{w32};
ghost use Rattle.std.proofs.Common.{to_z};
ghost use Rattle.machine.specs.Op.{op_number};
ghost use Rattle.image.specs.Layout.{layout};
ghost use Rattle.image.specs.Reading.{four_at, code_of};
ghost use Rattle.gateway.specs.Damage.{inverted};
ghost use Rattle.gateway.specs.Limit.{simple, limit_code, first_loaded};

use crate::damage::invert_bits;
use crate::error::Fault;
use crate::print::{print_code, print_head};
use crate::reading::read_code;
use crate::text::FourBytes;
use image::BLOCK;
use machine::Op;
use machine::instruction::Instruction;
use std::alloc::Global;
use std::io;

const IMAGE_NUMBER: u32 = 7;

const LIMIT: i32 = 1000;

// Where the first block has the instruction count, and the limit of the first instruction.
const COUNT_AT: usize = 8;

const LIMIT_AT: usize = 16;

pub type Block = [u8; BLOCK];

// A change that the line makes to a block.
#[derive(Clone, Copy)]
struct Trial {
    title: &'static str,
    // the first of the four bytes to show
    field: usize,
    at: usize,
    mask: u16,
}

static TRIALS: [Trial; 3] = [
    Trial {
        title: "The line drops one bit of the limit:",
        field: LIMIT_AT,
        at: LIMIT_AT + 2,
        mask: 0x0200,
    },
    Trial {
        title: "The line changes sixteen successive bits of the limit:",
        field: LIMIT_AT,
        at: LIMIT_AT + 2,
        mask: 0xffff,
    },
    Trial {
        title: "The line drops one bit of the instruction count:",
        field: COUNT_AT,
        at: COUNT_AT,
        mask: 0x0100,
    },
];

// An instruction on register 0.
fn on_register_0(op: Op, d: i32) -> Instruction
    ensures { result ≡ simple (op_number op) d }
{
    Instruction {
        op: op.number(),
        r: 0,
        s: 0,
        t: 0,
        d,
    }
}

// Code that puts a limit and stops.
fn limit_code(limit: i32) -> [Instruction; 3]
    ensures { result ≡ limit_code limit }
{
    [
        on_register_0(Op::Ldc, limit),
        on_register_0(Op::Out, 0),
        on_register_0(Op::Halt, 0),
    ]
}

// The limit that such code puts.
fn limit_of(code: &[Instruction]) -> Option<i32>
    ensures { result ≡ first_loaded code.now }
{
    match code.first() {
        Some(load) if load.op == Op::Ldc.number() => Some(load.d),
        _ => None,
    }
}

fn read_limit(heap: Global, image: &[u8]) -> Result<Option<i32>, Fault>
    ensures { IfOk result (λ limit. limit ≡ first_loaded (code_of layout image.now)) }
{
    let code = read_code(heap, image)?;
    Ok(limit_of(code.as_slice()))
}

// The limit that the bytes of a block have, whatever its check says.
fn unchecked_limit(block: &Block) -> i32
    ensures { result ≡ to_z w32 (four_at block.now 16) }
{
    i32::from_be_bytes([
        block[LIMIT_AT],
        block[LIMIT_AT + 1],
        block[LIMIT_AT + 2],
        block[LIMIT_AT + 3],
    ])
}

fn disturbed(sent: &Block, trial: &Trial) -> Block
    ensures { result ≡ inverted sent.now trial.now.at trial.now.mask }
{
    let mut block = *sent;
    invert_bits(&mut block, trial.at, trial.mask);
    block
}

fn print_reading(rt: &HostRuntime, block: &Block) -> Result<(), Fault> {
    match read_limit(rt.alloc(), block) {
        Ok(Some(limit)) => println!(rt; "  read back: a limit of {limit}")?,
        Ok(None) => println!(rt; "  read back: no limit")?,
        Err(Fault::Refused(refusal)) => println!(rt; "  the block is turned down: {refusal}")?,
        Err(fault) => return Err(fault),
    }
    Ok(())
}

fn print_field(rt: &HostRuntime, label: &str, block: &Block, at: usize) -> io::Result<()> {
    let field = FourBytes { bytes: block, at };
    println!(rt; "  {label}{field}")
}

fn print_trial(rt: &HostRuntime, sent: &Block, trial: &Trial) -> Result<(), Fault> {
    let received = disturbed(sent, trial);
    let title = trial.title;
    println!(rt; "\n{title}")?;
    print_field(rt, "sent:    ", sent, trial.field)?;
    print_field(rt, "received:", &received, trial.field)?;
    let count = received[COUNT_AT];
    let limit = unchecked_limit(&received);
    println!(rt; "  without a check would arrive: {count} instructions, a limit of {limit}")?;
    print_reading(rt, &received)
}

// Writes a limit as an image, reads it back, and sends it over a line that disturbs it. Gives the image.
pub fn deliver_limit(rt: &HostRuntime) -> Result<Block, Fault> {
    let code = limit_code(LIMIT);
    let mut block = [0; BLOCK];
    let _blocks = image::write(IMAGE_NUMBER, &code, &mut block)?;
    println!(rt; "Code for a limit of {LIMIT}:")?;
    print_code(rt, &code)?;
    println!(rt; "\nIts image:")?;
    print_head(rt, &block, 0)?;
    print_reading(rt, &block)?;
    for trial in &TRIALS {
        print_trial(rt, &block, trial)?;
    }
    Ok(block)
}

#![tactic(auto)]

ghost use Rattle.std.specs.Prelude.{◌≡◌, ◌<◌, length, if◌then◌else◌, IfOk, Ok, Err};
ghost use Rattle.refusal.specs.Faults.{refusal};
ghost use Rattle.refusal.specs.declared.Reason.TheVariants.{StoreMismatch};
ghost use Rattle.image.specs.Layout.{layout};
ghost use Rattle.image.specs.Reading.{code_after};
ghost use Rattle.machine.specs.Machine.{start};
ghost use Rattle.cabinet.specs.Kept.{Fit};
ghost use Rattle.cabinet.specs.Calls.{load_reply, load_outcome, mismatched, run_outcome, restart_outcome};

use image::{block_count, read};
use machine::Ran;
use machine::instruction::Instruction;
use port::Port;
use refusal::{Reason, Refusal};
use std::marker::Model;

// The sizes of memory that a cabinet can have, and the most steps of a grant.
const SMALLEST: usize = 16;

const LARGEST: usize = 16384;

const GRANT: u32 = 1_000_000;

// An empty cabinet. Neither state can be copied or let go. Each call takes the stores one by one: they are the caller's, who
// may hand in parts of larger ones.
pub struct Empty {}

// A loaded cabinet: its registers, its number of instructions, and the lengths of the stores that it was loaded with.
pub struct Loaded {
    registers: [i32; 8],
    count: usize,
    slots: usize,
    cells: usize,
}

impl Model for Loaded {
    ghost use Rattle.std.specs.Prelude.{◌≤◌};
    ghost use Rattle.cabinet.specs.Kept.{Kept};

    ghost Value = { Kept };

    ghost view = { λ l. record { registers = l.registers; count = l.count; slots = l.slots; cells = l.cells } };

    // The code store has a place for each instruction, and the memory a right size.
    ghost invariant = { λ l. (l.count ≤ l.slots) × ((16 ≤ l.cells) × (l.cells ≤ 16384)) };
}

// A refused load gives the cabinet back.
pub struct Refused {
    pub refusal: Refusal,
    pub cabinet: Empty,
}

// A granted load: the cabinet at the start of its code, and the number of instructions.
pub struct Started {
    pub cabinet: Loaded,
    pub count: usize,
}

// Decodes the image, unless it or the size of the memory is refused.
fn prepare(image: &[u8], code: &mut [Instruction], cells: usize) -> Result<usize, Refusal>
    ensures reply { result ≡ load_reply image.now (length code.old) cells }
    ensures store { code.new ≡ code_after layout image.now code.old result }
{
    let _blocks = block_count(image)?;
    if !(SMALLEST..=LARGEST).contains(&cells) {
        return Err(Reason::MemorySize.at(0));
    }
    read(image, code)
}

// Every cell 0, but the first, which holds the number of the last.
fn clear(memory: &mut [i32])
    requires { length memory.old < 65536 }
    ensures { memory.new ≡ (start (length memory.old)).cells }
{
    memory.fill(0);
    if memory.len() > 0 {
        // proved to fit: `try_from` would add a refusal that never comes
        memory[0] = (memory.len() - 1) as i32;
    }
}

impl Empty {
    pub fn new() -> Empty
        ensures { result ≡ record {} }
    {
        Empty {}
    }

    // Ends a cabinet for good.
    pub fn retire(self) {
        let Empty {} = self;
    }

    pub fn load(
        self,
        image: &[u8],
        code: &mut [Instruction],
        memory: &mut [i32],
    ) -> Result<Started, Refused>
        ensures fit { IfOk result (λ s. Fit s.cabinet) }
        ensures outcome { record { result = result; code = code.new; memory = memory.new }
            ≡ load_outcome self image.now code.old memory.old }
    {
        let cells = memory.len();
        match prepare(image, code, cells) {
            Err(refusal) => Err(Refused {
                refusal,
                cabinet: self,
            }),
            Ok(count) => {
                clear(memory);
                let Empty {} = self;
                let cabinet = Loaded {
                    registers: [0; 8],
                    count,
                    slots: code.len(),
                    cells,
                };
                Ok(Started { cabinet, count })
            }
        }
    }
}

impl Loaded {
    // The stores must be of the lengths that they had at the load.
    fn check_stores(&self, code: &[Instruction], memory: &[i32]) -> Result<(), Refusal>
        ensures reply { result ≡ (if mismatched self.now code.now memory.now then Err (refusal StoreMismatch 0) else Ok tt) }
        ensures fit { Fit self.now }
    {
        if code.len() != self.slots || memory.len() != self.cells {
            return Err(Reason::StoreMismatch.at(0));
        }
        Ok(())
    }

    // Lets the machine go on for at most `grant` steps over a port.
    pub fn run<P: Port>(
        &mut self,
        code: &[Instruction],
        memory: &mut [i32],
        port: &mut P,
        grant: u32,
    ) -> Result<Ran, Refusal>
        ensures fit { Fit self.old × Fit self.new }
        ensures outcome { record { result = result; cabinet = self.new; memory = memory.new; port = P.Port.meaning port.new }
            ≡ run_outcome P.Port.ways self.old code.now memory.old (P.Port.meaning port.old) grant }
    {
        self.check_stores(code, memory)?;
        if !(1..=GRANT).contains(&grant) {
            return Err(Reason::GrantSize.at(0));
        }
        Ok(machine::run(
            &code[0..self.count],
            &mut self.registers,
            memory,
            port,
            grant,
        ))
    }

    // Back to the start of the code.
    pub fn restart(&mut self, code: &[Instruction], memory: &mut [i32]) -> Result<(), Refusal>
        ensures fit { Fit self.old × Fit self.new }
        ensures outcome { record { result = result; cabinet = self.new; memory = memory.new }
            ≡ restart_outcome self.old code.now memory.old }
    {
        self.check_stores(code, memory)?;
        self.registers = [0; 8];
        clear(memory);
        Ok(())
    }

    // An empty cabinet again; its stores are left as they are.
    pub fn unload(self) -> Empty
        ensures { result ≡ record {} }
    {
        let Loaded {
            registers: _,
            count: _,
            slots: _,
            cells: _,
        } = self;
        Empty {}
    }
}

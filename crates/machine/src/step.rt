ghost use Rattle.std.specs.Prelude.{◌≡◌, true, length, unsigned_abs, if◌then◌else◌, Some, None, Ok, Err};
ghost use Rattle.machine.specs.declared.stop.Stop.TheVariants.{Address};
ghost use Rattle.machine.specs.Machine.{within, act_of, act};
ghost use Rattle.machine.specs.Op.{op_number};
ghost use Rattle.machine.specs.Loop.{store_state, SameMemory, NamesRegisters, Stepped, Fetched};

use crate::instruction::Instruction;
use crate::op::Op;
use crate::stop::Stop;
use port::Port;

// What a run reads and writes beside its port.
#[derive(Drop)]
pub(crate) struct Store<'m> {
    pub(crate) registers: &'m mut [i32; 8],
    pub(crate) cells: &'m mut [i32],
}

// A number as the index of one of `n` things.
fn index(a: i32, n: usize) -> Option<usize>
    ensures { result ≡ if within a n then Some (unsigned_abs a) else None }
{
    // proved to fit: `try_from` costs every step of a run more than these two comparisons
    if 0 <= a && (a as usize) < n {
        Some(a as usize)
    } else {
        None
    }
}

// The instruction at a place, with its op, if it has the form.
fn fetch(code: &[Instruction], place: i32) -> Option<(Op, &Instruction)>
    ensures { Fetched code.now place result }
{
    let i = &code[index(place, code.len())?];
    Some((i.formed_op()?, i))
}

impl Store<'_> {
    // The index of the cell at an address.
    fn cell(&self, address: i32) -> Result<usize, Stop>
        ensures { result ≡ if within address (length self.now.cells.now) then Ok (unsigned_abs address) else Err Address }
    {
        index(address, self.cells.len()).ok_or(Stop::Address)
    }

    // An instruction of this op acts; register 7 is raised already.
    fn perform<P: Port>(&mut self, op: Op, i: &Instruction, port: &mut P) -> Result<(), Stop>
        requires { NamesRegisters i.now }
        ensures stepped { Stepped P.Port.ways
            (act_of true (op_number op) i.now (store_state self.old))
            (store_state self.old) (P.Port.meaning port.old)
            result (store_state self.new) (P.Port.meaning port.new) }
        ensures memory { SameMemory self.old self.new }
    {
        let (r, s, t) = (usize::from(i.r), usize::from(i.s), usize::from(i.t));
        let (v, x) = (self.registers[r], self.registers[s]);
        let address = word::add(i.d, x);
        match op {
            Op::Halt => return Err(Stop::Halt(i.r)),
            Op::In => self.registers[r] = port.take().ok_or(Stop::Waiting)?,
            Op::Out => {
                if !port.put(v) {
                    return Err(Stop::Blocked(v));
                }
            }
            Op::Add => self.registers[r] = word::add(x, self.registers[t]),
            Op::Sub => self.registers[r] = word::sub(x, self.registers[t]),
            Op::Mul => self.registers[r] = word::mul(x, self.registers[t]),
            Op::Div => self.registers[r] = word::div(x, self.registers[t]).ok_or(Stop::Divisor)?,
            Op::Ld => self.registers[r] = self.cells[self.cell(address)?],
            Op::St => {
                let cell = self.cell(address)?;
                self.cells[cell] = v;
            }
            Op::Lda => self.registers[r] = address,
            Op::Ldc => self.registers[r] = i.d,
            Op::Jlt if v < 0 => self.registers[7] = address,
            Op::Jle if v <= 0 => self.registers[7] = address,
            Op::Jgt if v > 0 => self.registers[7] = address,
            Op::Jge if v >= 0 => self.registers[7] = address,
            Op::Jeq if v == 0 => self.registers[7] = address,
            Op::Jne if v != 0 => self.registers[7] = address,
            Op::Jlt | Op::Jle | Op::Jgt | Op::Jge | Op::Jeq | Op::Jne => {}
        }
        Ok(())
    }

    // An instruction that stops has no effect: register 7 is put back.
    pub(crate) fn step<P: Port>(&mut self, code: &[Instruction], port: &mut P) -> Result<(), Stop>
        ensures stepped { Stepped P.Port.ways (act code.now (store_state self.old))
            (store_state self.old) (P.Port.meaning port.old)
            result (store_state self.new) (P.Port.meaning port.new) }
        ensures memory { SameMemory self.old self.new }
    {
        let place = self.registers[7];
        let (op, i) = fetch(code, place).ok_or(Stop::Place)?;
        self.registers[7] = word::add(place, 1);
        let result = self.perform(op, i, port);
        if result.is_err() {
            self.registers[7] = place;
        }
        result
    }
}

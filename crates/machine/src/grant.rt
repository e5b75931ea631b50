ghost use Rattle.std.specs.Prelude.{◌≡◌};
ghost use Rattle.machine.specs.Machine.{state_of};
ghost use Rattle.machine.specs.Run.{run_over, told};
ghost use Rattle.machine.specs.Laws.{RunIsSteps, GrantsAdd};

use crate::instruction::Instruction;
use crate::step::Store;
use crate::stop::Stop;
use port::Port;

// What a run tells: why it stopped, and the steps that it made.
#[derive(Clone, Copy, PartialEq, Eq, Debug)]
pub struct Ran {
    pub stop: Stop,
    pub steps: u32,
}

// Runs the machine for at most `grant` steps; an instruction that stops counts none. Registers and cells come apart, since a
// cabinet holds the ones and its caller the others.
pub fn run<P: Port>(
    code: &[Instruction],
    registers: &mut [i32; 8],
    cells: &mut [i32],
    port: &mut P,
    grant: u32,
) -> Ran
    ensures outcome { record {
      stop = result.stop;
      steps = result.steps;
      state = state_of registers.new cells.new;
      port = P.Port.meaning port.new;
    }
        ≡ told (run_over P.Port.ways code.now grant
        (state_of registers.old cells.old) (P.Port.meaning port.old)) }
    ensures laws { RunIsSteps P.Port.ways code.now × GrantsAdd P.Port.ways code.now }
{
    let mut store = Store { registers, cells };
    for steps in 0..grant {
        if let Err(stop) = store.step(code, port) {
            return Ran { stop, steps };
        }
    }
    Ran {
        stop: Stop::Spent,
        steps: grant,
    }
}

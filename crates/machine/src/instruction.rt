ghost use Rattle.std.specs.Prelude.{◌≡◌, true, false, MatchOption};
ghost use Rattle.machine.specs.Form.{formed};
ghost use Rattle.machine.specs.Op.{op_number};

use crate::op::Op;

// One instruction of the Tiny Machine: an op, three registers and a displacement. The op is any byte, as it may stand in a
// block: what has not the form is refused by number and place.
#[derive(Clone, Copy, PartialEq, Eq, Debug)]
pub struct Instruction {
    pub op: u8,
    pub r: u8,
    pub s: u8,
    pub t: u8,
    pub d: i32,
}

impl Instruction {
    // Whether the op is one of the machine's, and each field that it does not use is 0.
    pub fn has_form(&self) -> bool
        ensures { result ≡ formed self.now }
    {
        self.formed_op().is_some()
    }

    // The op of an instruction that has the form.
    pub(crate) fn formed_op(&self) -> Option<Op>
        ensures { MatchOption result (formed self.now ≡ false)
            (λ op. (op_number op ≡ self.now.op) × (formed self.now ≡ true)) }
    {
        Op::try_from(self.op)
            .ok()
            .filter(|&op| self.has_form_of(op))
    }

    // The same, where the op is known. Each step of a run comes here: registers that are read at once are compared in one branch,
    // and a displacement that the op uses is not read.
    fn has_form_of(&self, op: Op) -> bool
        requires { op_number op ≡ self.now.op }
        ensures { result ≡ formed self.now }
    {
        let Instruction { r, s, t, .. } = *self;
        r <= 7
            && s <= 7
            && t <= 7
            && (op.uses_t() || t == 0)
            && (op.uses_d() || self.d == 0)
            && (op.uses_s() || s == 0)
    }
}

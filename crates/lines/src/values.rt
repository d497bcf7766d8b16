// The line that names all values of a refusal.
ghost use Rattle.std.specs.Prelude.{◌≡◌};
ghost use Rattle.lines.specs.Refusals.{run_code, values_text, code, refusal_line};
ghost use Rattle.lines.specs.Writing.{Writes, written, written_after};

use crate::pen::BufferPen;
use crate::refusal::*;
use crate::writing::Printed;

impl RunFault {
    // The values that it names after the first: gauge or gate, number and steps, or site and steps.
    fn put_others(self, pen: &mut BufferPen<'_>) -> Result<(), Short>
        ensures { Writes pen.old (values_text (run_code self).others) result pen.new }
    {
        match self.fault {
            StepFault::Register(register) => {
                pen.numbered(b" ", u16::from(register.instrument) as usize)?;
                pen.numbered(b" ", register.fault.number())?;
                pen.numbered(b" ", self.steps as usize)
            }
            StepFault::Full(_) => {
                pen.numbered(b" ", self.site as usize)?;
                pen.numbered(b" ", self.steps as usize)
            }
        }
    }
}

impl Refusal {
    // The values that it names after the first.
    fn put_others(self, pen: &mut BufferPen<'_>) -> Result<(), Short>
        ensures { Writes pen.old (values_text (code self).others) result pen.new }
    {
        match self {
            Refusal::Run(fault) => fault.put_others(pen),
            Refusal::Register(fault) => pen.numbered(b" ", fault.number()),
            _ => pen.word(b""),
        }
    }

    // Writes the line that names the refusal by its number and all its values.
    pub fn write_refusal(self, out: &mut [u8]) -> Result<usize, Refusal>
        ensures value { result ≡ written (refusal_line self) out.old }
        ensures after { out.new ≡ written_after (refusal_line self) out.old }
    {
        self.write(out)
    }
}

// A refusal by its number and all its values.
impl Printed for Refusal {
    ghost text = { refusal_line };

    fn put(&self, pen: &mut BufferPen<'_>) -> Result<(), Short> {
        let (number, first) = self.code();
        pen.numbered(b"(refused ", number as usize)?;
        pen.numbered(b" ", first)?;
        self.put_others(pen)?;
        pen.word(b")\n")
    }
}

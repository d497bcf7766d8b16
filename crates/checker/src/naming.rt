// Writing the type of an accepted program.
ghost use Rattle.std.specs.Prelude.{◌≡◌, ◌<◌, ◌++◌, length, codes};
ghost use Rattle.lines.specs.Writing.{Writes};
ghost use Rattle.checker.specs.TypeTable.{meaning};
ghost use Rattle.checker.specs.Accepting.{place as place_of};
ghost use Rattle.checker.specs.TypeLine.{type_text, type_line, type_written, type_written_after};

use crate::accepted::Accepted;
use crate::types::TypeRows;
use lines::pen::BufferPen;
use lines::refusal::{Refusal, Short};
use lines::writing::Printed;
use syntax::program::Ty;

// Not the writer of program texts: here built types stand behind the written ones, and no depth bounds them. That a part is in the table
// is asked by one line each: a struct of table and number would be made anew for each part.
impl TypeRows<'_> {
    // A type and the bracket behind it. The words before stand where they are put: a word that is handed on is copied as of any length.
    #[cycle(put_put_one_put_two)]
    fn put_one(&self, pen: &mut BufferPen<'_>, part: u16) -> Result<(), Short>
        requires { part < length self.now.rows.now }
        ensures { Writes pen.old (type_text (meaning self.now.written self.now.rows.now part) ++ codes ")") result pen.new }
    {
        self.put(pen, part)?;
        pen.word(b")")
    }

    // Two types with a space between, and the bracket behind them.
    #[cycle(put_put_one_put_two)]
    fn put_two(&self, pen: &mut BufferPen<'_>, left: u16, right: u16) -> Result<(), Short>
        requires left { left < length self.now.rows.now }
        requires right { right < length self.now.rows.now }
        ensures { Writes pen.old (type_text (meaning self.now.written self.now.rows.now left) ++ (codes " " ++ (type_text (meaning self.now.written self.now.rows.now right) ++ codes ")"))) result pen.new }
    {
        self.put(pen, left)?;
        pen.word(b" ")?;
        self.put(pen, right)?;
        pen.word(b")")
    }

    // The type with a number.
    #[cycle(put_put_one_put_two)]
    fn put(&self, pen: &mut BufferPen<'_>, number: u16) -> Result<(), Short>
        requires { number < length self.now.rows.now }
        ensures { Writes pen.old (type_text (meaning self.now.written self.now.rows.now number)) result pen.new }
    {
        match self.rows[number as usize] {
            Ty::Num => pen.word(b"num"),
            Ty::Never => pen.word(b"none"),
            Ty::Fn { from, to } => {
                pen.word(b"(fn ")?;
                self.put_two(pen, from, to)
            }
            Ty::Both { left, right } => {
                pen.word(b"(both ")?;
                self.put_two(pen, left, right)
            }
            Ty::Boxed(part) => {
                pen.word(b"(box ")?;
                self.put_one(pen, part)
            }
            Ty::At(part) => {
                pen.word(b"(at ")?;
                self.put_one(pen, part)
            }
        }
    }
}

// The type with a number, as the line that names it.
#[derive(Clone, Copy)]
struct TypeLine<'a> {
    types: TypeRows<'a>,
    number: u16,
    ghost known: { number < length types.rows.now },
}

impl Printed for TypeLine<'_> {
    ghost text = { λ t. type_line (meaning t.types.written t.types.rows.now t.number) };

    fn put(&self, pen: &mut BufferPen<'_>) -> Result<(), Short> {
        pen.word(b"(type ")?;
        self.types.put(pen, self.number)?;
        pen.word(b")\n")
    }
}

impl Accepted {
    // Writes the line that names the type of the program into a buffer, and answers its length. A buffer that is too short stays as it
    // is.
    pub fn write_type(&self, out: &mut [u8]) -> Result<usize, Refusal>
        ensures value { result ≡ type_written (place_of self.now) out.old }
        ensures after { out.new ≡ type_written_after (place_of self.now) out.old }
    {
        let Some(entry) = self.entry else {
            return Err(Refusal::Nothing);
        };
        let types = TypeRows {
            rows: self.types.as_slice(),
            written: entry.written,
        };
        TypeLine {
            types,
            number: entry.ty,
        }
        .write(out)
    }
}

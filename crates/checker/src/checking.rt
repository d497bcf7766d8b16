// Checking the program of a text place into a place for accepted programs.
ghost use Rattle.std.specs.Prelude.{◌≡◌, ◌≤◌, length, IfOk, Ok};
ghost use Rattle.syntax.specs.Place.{tables, place as text_place};
ghost use Rattle.calculus.specs.Checker.{CheckDecides};
ghost use Rattle.checker.specs.Scopes.{rows_of, meaning_of};
ghost use Rattle.checker.specs.Accepting.{place as place_of, program_of, answered, checked_into};
ghost use Rattle.checker.specs.Accepting.Place.{empty, full as a_program};
ghost use Rattle.checker.specs.Concluding.{Sound, Clear, Concluded};

use crate::accepted::{Accepted, Entry};
use crate::context::{At, Bound, Context, Height};
use crate::scopes::ScopeList;
use crate::spot::{Setting, Spot};
use lines::refusal::{CheckFault, Refusal};
use rows::Rows;
use std::alloc::{AllocError, Global};
use syntax::program::Ty;
use syntax::table::Program;
use syntax::text::Text;

impl ScopeList {
    // A scope list with room for every program; nothing is bound.
    pub fn new(heap: Global) -> Result<ScopeList, AllocError>
        ensures { IfOk result (λ s. s.context.height ≡ record { values = 0; worlds = 0; continuations = 0 }) }
    {
        let types = Rows::new(heap)?;
        let nothing = Bound {
            ty: 0,
            world: At::Site(0),
        };
        let values = vec![in heap; nothing; 1024]?;
        let continuations = vec![in heap; nothing; 1024]?;
        let height = Height {
            values: 0,
            worlds: 0,
            continuations: 0,
        };
        let context = Context {
            written: 0,
            types,
            values,
            continuations,
            height,
        };
        Ok(ScopeList { context })
    }
}

impl Context {
    // Begins with the types that a program has written.
    fn load(&mut self, types: &[Ty])
        requires { length types.now ≤ 512 }
        ensures rows { rows_of self.new ≡ types.now }
        ensures written { self.new.written ≡ length types.now }
        ensures height { self.new.height ≡ self.old.height }
    {
        let _ = self.types.replace(types);
        self.written = types.len();
    }

    // The number of the type of a program's first term, at the site where it starts.
    fn conclude(&mut self, program: &Program) -> Result<u16, CheckFault>
        requires sound { Sound (tables program.now) }
        requires clear { Clear self.old.height }
        ensures concluded { Concluded (tables program.now) result self.new }
        ensures height { self.new.height ≡ self.old.height }
    {
        self.load(program.types());
        let sheet = program.sheet();
        let start = program.start();
        if start as usize >= sheet.len() {
            return Err(CheckFault::Unbound(0));
        }
        let setting = Setting {
            terms: program.terms(),
            sheet: &sheet,
        };
        self.judge(
            Spot {
                setting: &setting,
                term: 0,
            },
            At::Site(start),
        )
    }
}

impl Accepted {
    // An empty place, with room for every program.
    pub fn new(heap: Global) -> Result<Accepted, AllocError>
        ensures { IfOk result (λ a. place_of a ≡ empty) }
    {
        Ok(Accepted {
            types: Rows::new(heap)?,
            terms: Rows::new(heap)?,
            entry: None,
        })
    }

    // Takes over a program that was accepted, with the types that were built for it.
    fn fill(&mut self, program: &Program, context: &mut Context, ty: u16)
        requires sound { Sound (tables program.now) }
        requires concluded { Concluded (tables program.now) (Ok ty) context.old }
        ensures place { place_of self.new ≡ a_program (program_of (tables program.now)) (meaning_of context.old ty) }
        ensures height { context.new.height ≡ context.old.height }
    {
        let _ = self.terms.replace(program.terms());
        std::mem::swap(&mut self.types, &mut context.types);
        self.entry = Some(Entry {
            written: context.written,
            sheet: program.sheet(),
            start: program.start(),
            ty,
        });
    }
}

// Checks the program of a text place. An accepted program goes into the place for programs, with tables of its own and its type; one
// that is refused leaves that place as it was, and either way nothing stays bound. `decides`: a program is accepted exactly if the typing
// rules give it a type, and then with that type and no other.
pub fn check(text: &Text, scopes: &mut ScopeList, place: &mut Accepted) -> Result<(), Refusal>
    ensures value { result ≡ answered (text_place text.now) }
    ensures after { place_of place.new ≡ checked_into (place_of place.old) (text_place text.now) }
    ensures height { scopes.new.context.height ≡ scopes.old.context.height }
    ensures decides { CheckDecides }
{
    let Some(program) = text.program() else {
        return Err(Refusal::Nothing);
    };
    let ty = scopes.context.conclude(program)?;
    place.fill(program, &mut scopes.context, ty);
    Ok(())
}

// Reads types and terms into tables.
ghost use Rattle.std.specs.Prelude.{◌≡◌, ℕ, ◌<◌, ◌≤◌, false, List, [], ◌∷◌, ◌++◌, length, IfOk, nat_le};
ghost use Rattle.syntax.specs.Grammar.{Want, words, wants, last as last_byte, spelling, spelled_out};
ghost use Rattle.syntax.specs.Grammar.Stop.{close, space};
ghost use Rattle.syntax.specs.Grammar.Want.{stop as want_stop, number as want_number, item as want_item};
ghost use Rattle.syntax.specs.Reading.{Seen, begun, full, opened, push};
ghost use Rattle.syntax.specs.Texts.{In};
ghost use Rattle.syntax.specs.Views.{Led, Clear, from, at, inside, type_form, parts_of_type, term_form, parts_of_term, get_form, kind_of, count_of, longer};
ghost use Rattle.syntax.specs.declared.grammar.Form.TheVariants.{Throw, Go, Below};
ghost use Rattle.syntax.specs.declared.grammar.Sort.TheVariants.{Types, Terms, Worlds};

use crate::grammar::{Form, Sort};
use crate::program::{Mobile, Term, Ty, World};
use crate::reader::Reader;
use crate::table::Program;
use lines::refusal::TextFault;
use rows::Rows;

// The draft and the depth are handed on beside the reader: were they its fields, each contract below would also have to say that the
// reference and the depth are after the call what they were before it.
impl Reader<'_> {
    // An item of the sort begins, and its row takes the next place of the table: that place, and the item's form.
    fn begin<T: Drop, const N: usize>(
        &mut self,
        rows: &mut Rows<T, N>,
        row: T,
        sort: Sort,
        depth: usize,
    ) -> Result<(u16, Form), TextFault>
        requires small { N ≤ 65536 }
        ensures led { (k : List Want) (s : Seen) → s.depth ≡ depth → Clear sort (begun sort s) (words sort) → full sort s ≡ nat_le N (length rows.old.items) → Led result (from self.old (want_item sort ∷ k) s) (λ x. from self.new (wants x.1 k) (opened x.1 (begun sort s))) }
        ensures row { IfOk result (λ x. (x.0 ≡ length rows.old.items) × (rows.new.items ≡ rows.old.items ++ row ∷ [])) }
        ensures picked { IfOk result (λ x. In (spelling x.1) x.1 (words sort) × (last_byte x.1 ≡ 41 → depth < 64)) }
    {
        let place = self.place;
        self.first(sort, depth)?;
        let Some(number) = rows.push(row) else {
            return Err(TextFault::TooMany(place));
        };
        let form = self.word(sort)?;
        // No cast of the crate cuts anything off, as the check proves: `try_from` would add an arm that no value reaches.
        Ok((number as u16, form))
    }

    // A space and a type. One method for types, worlds, numbers and terms would be handed what reads them, a closure over the reader itself.
    #[cycle(next_type_ty_type_parts)]
    fn next_type(&mut self, draft: &mut Program, depth: usize) -> Result<u16, TextFault>
        ensures { (k : List Want) (vs : List ℕ) → Led result (at self.old draft.old (want_stop space ∷ want_item Types ∷ k) vs depth) (λ n. at self.new draft.new k (n ∷ vs) depth) }
    {
        self.stop(b' ')?;
        self.ty(draft, depth)
    }

    // A type's parts. A form and its depth stay two parameters here and below: `begin` makes the form, and the first `match` takes it apart.
    #[cycle(next_type_ty_type_parts)]
    fn type_parts(&mut self, draft: &mut Program, form: Form, depth: usize) -> Result<Ty, TextFault>
        requires form { In (spelling form) form (words Types) }
        requires room { last_byte form ≡ 41 → depth < 64 }
        ensures led { (k : List Want) (vs : List ℕ) → Led result (inside self.old draft.old form (wants form k) vs depth) (λ t. inside self.new draft.new form (want_stop (close form) ∷ k) (parts_of_type t ++ vs) depth) }
        ensures formed { IfOk result (λ t. type_form t ≡ form) }
    {
        match form {
            Form::TNum => Ok(Ty::Num),
            Form::TNone => Ok(Ty::Never),
            Form::TFn => Ok(Ty::Fn {
                from: self.ty(draft, depth + 1)?,
                to: self.next_type(draft, depth + 1)?,
            }),
            Form::TBox => Ok(Ty::Boxed(self.ty(draft, depth + 1)?)),
            Form::TAt => Ok(Ty::At(self.ty(draft, depth + 1)?)),
            Form::TBoth => Ok(Ty::Both {
                left: self.ty(draft, depth + 1)?,
                right: self.next_type(draft, depth + 1)?,
            }),
            _ => unreachable(),
        }
    }

    // A type.
    #[cycle(next_type_ty_type_parts)]
    fn ty(&mut self, draft: &mut Program, depth: usize) -> Result<u16, TextFault>
        ensures { (k : List Want) (vs : List ℕ) → Led result (at self.old draft.old (want_item Types ∷ k) vs depth) (λ n. at self.new draft.new k (n ∷ vs) depth) }
    {
        let (number, form) = self.begin(&mut draft.types, Ty::Num, Sort::Types, depth)?;
        let node = self.type_parts(draft, form, depth)?;
        self.stop(form.last())?;
        draft.types.set(usize::from(number), node);
        Ok(number)
    }

    // A space and a world.
    fn next_world(&mut self, depth: usize) -> Result<World, TextFault>
        ensures { (k : List Want) (s : Seen) → s.depth ≡ depth → Led result (from self.old (want_stop space ∷ want_item Worlds ∷ k) s) (λ w. from self.new k (push (kind_of w) (push (count_of w) s))) }
    {
        self.stop(b' ')?;
        self.world(depth)
    }

    // A space and a number, up to the space behind it.
    fn next_number(&mut self) -> Result<u16, TextFault>
        ensures { (k : List Want) (s : Seen) → Led result (from self.old (want_stop space ∷ want_number false space ∷ k) s) (λ n. from self.new (want_stop space ∷ k) (push n s)) }
    {
        self.stop(b' ')?;
        self.number(false)
    }

    // A space and a term.
    #[cycle(below_get_go_more_parts_next_term_term_term_parts_throw)]
    pub(crate) fn next_term(&mut self, draft: &mut Program, depth: usize) -> Result<u16, TextFault>
        ensures { (k : List Want) (vs : List ℕ) → Led result (at self.old draft.old (want_stop space ∷ want_item Terms ∷ k) vs depth) (λ n. at self.new draft.new k (n ∷ vs) depth) }
    {
        self.stop(b' ')?;
        self.term(draft, depth)
    }

    // The parts of a get.
    #[cycle(below_get_go_more_parts_next_term_term_term_parts_throw)]
    fn get(&mut self, draft: &mut Program, mobile: Mobile, depth: usize) -> Result<Term, TextFault>
        ensures led { (k : List Want) (vs : List ℕ) → Led result (at self.old draft.old (want_item Worlds ∷ want_stop space ∷ want_item Terms ∷ k) vs depth) (λ t. at self.new draft.new k (parts_of_term t ++ vs) depth) }
        ensures formed { IfOk result (λ t. term_form t ≡ get_form mobile) }
    {
        Ok(Term::Get {
            mobile,
            world: self.world(depth)?,
            part: self.next_term(draft, depth)?,
        })
    }

    // The parts of a throw.
    #[cycle(below_get_go_more_parts_next_term_term_term_parts_throw)]
    fn throw(&mut self, draft: &mut Program, depth: usize) -> Result<Term, TextFault>
        ensures led { (k : List Want) (vs : List ℕ) → Led result (at self.old draft.old (want_item Types ∷ want_stop space ∷ want_number false space ∷ want_item Terms ∷ k) vs depth) (λ t. at self.new draft.new k (parts_of_term t ++ vs) depth) }
        ensures formed { IfOk result (λ t. term_form t ≡ Throw) }
    {
        Ok(Term::Throw {
            written: self.ty(draft, depth)?,
            continuation: self.next_number()?,
            part: self.next_term(draft, depth)?,
        })
    }

    // The parts of a go.
    #[cycle(below_get_go_more_parts_next_term_term_term_parts_throw)]
    fn go(&mut self, draft: &mut Program, depth: usize) -> Result<Term, TextFault>
        ensures led { (k : List Want) (vs : List ℕ) → Led result (at self.old draft.old (want_item Types ∷ want_stop space ∷ want_item Worlds ∷ want_stop space ∷ want_item Terms ∷ k) vs depth) (λ t. at self.new draft.new k (parts_of_term t ++ vs) depth) }
        ensures formed { IfOk result (λ t. term_form t ≡ Go) }
    {
        Ok(Term::Go {
            written: self.ty(draft, depth)?,
            world: self.next_world(depth)?,
            part: self.next_term(draft, depth)?,
        })
    }

    // The parts of a comparison.
    #[cycle(below_get_go_more_parts_next_term_term_term_parts_throw)]
    fn below(&mut self, draft: &mut Program, depth: usize) -> Result<Term, TextFault>
        ensures led { (k : List Want) (vs : List ℕ) → Led result (at self.old draft.old (want_item Types ∷ want_stop space ∷ want_item Terms ∷ want_stop space ∷ want_item Terms ∷ want_stop space ∷ want_item Terms ∷ want_stop space ∷ want_item Terms ∷ k) vs depth) (λ t. at self.new draft.new k (parts_of_term t ++ vs) depth) }
        ensures formed { IfOk result (λ t. term_form t ≡ Below) }
    {
        Ok(Term::Below {
            written: self.ty(draft, depth)?,
            left: self.next_term(draft, depth)?,
            right: self.next_term(draft, depth)?,
            less: self.next_term(draft, depth)?,
            otherwise: self.next_term(draft, depth)?,
        })
    }

    // The parts of a term that has two parts or more, its world aside.
    #[cycle(below_get_go_more_parts_next_term_term_term_parts_throw)]
    fn more_parts(
        &mut self,
        draft: &mut Program,
        form: Form,
        depth: usize,
    ) -> Result<Term, TextFault>
        requires form { In (spelling form) form (spelled_out longer) }
        requires room { last_byte form ≡ 41 → depth < 64 }
        ensures led { (k : List Want) (vs : List ℕ) → Led result (inside self.old draft.old form (wants form k) vs depth) (λ t. inside self.new draft.new form (want_stop (close form) ∷ k) (parts_of_term t ++ vs) depth) }
        ensures formed { IfOk result (λ t. term_form t ≡ form) }
    {
        match form {
            Form::Lam => Ok(Term::Lam {
                written: self.ty(draft, depth + 1)?,
                body: self.next_term(draft, depth + 1)?,
            }),
            Form::App => Ok(Term::App {
                function: self.term(draft, depth + 1)?,
                argument: self.next_term(draft, depth + 1)?,
            }),
            Form::Letd => Ok(Term::Letd {
                address: self.term(draft, depth + 1)?,
                body: self.next_term(draft, depth + 1)?,
            }),
            Form::Pair => Ok(Term::Pair {
                left: self.term(draft, depth + 1)?,
                right: self.next_term(draft, depth + 1)?,
            }),
            Form::Letcc => Ok(Term::Letcc {
                written: self.ty(draft, depth + 1)?,
                body: self.next_term(draft, depth + 1)?,
            }),
            Form::Throw => self.throw(draft, depth + 1),
            Form::Go => self.go(draft, depth + 1),
            Form::Gate => Ok(Term::Gate {
                number: self.number(false)?,
                part: self.next_term(draft, depth + 1)?,
            }),
            Form::Below => self.below(draft, depth + 1),
            _ => unreachable(),
        }
    }

    // A term's parts.
    #[cycle(below_get_go_more_parts_next_term_term_term_parts_throw)]
    fn term_parts(
        &mut self,
        draft: &mut Program,
        form: Form,
        depth: usize,
    ) -> Result<Term, TextFault>
        requires form { In (spelling form) form (words Terms) }
        requires room { last_byte form ≡ 41 → depth < 64 }
        ensures led { (k : List Want) (vs : List ℕ) → Led result (inside self.old draft.old form (wants form k) vs depth) (λ t. inside self.new draft.new form (want_stop (close form) ∷ k) (parts_of_term t ++ vs) depth) }
        ensures formed { IfOk result (λ t. term_form t ≡ form) }
    {
        match form {
            Form::Num => Ok(Term::Num(self.number(false)?)),
            Form::Val => Ok(Term::Value(self.number(false)?)),
            Form::Boxed => Ok(Term::Boxed(self.term(draft, depth + 1)?)),
            Form::Unbox => Ok(Term::Unbox(self.term(draft, depth + 1)?)),
            Form::Here => Ok(Term::Here(self.term(draft, depth + 1)?)),
            Form::Getb => self.get(draft, Mobile::Code, depth + 1),
            Form::Getd => self.get(draft, Mobile::Address, depth + 1),
            Form::Getn => self.get(draft, Mobile::Number, depth + 1),
            Form::Fst => Ok(Term::Fst(self.term(draft, depth + 1)?)),
            Form::Snd => Ok(Term::Snd(self.term(draft, depth + 1)?)),
            Form::Gauge => Ok(Term::Gauge(self.number(false)?)),
            _ => self.more_parts(draft, form, depth),
        }
    }

    // A term, read as a type is, into the other table: one method for both would hold a table of the draft while the parts are read into
    // the draft.
    #[cycle(below_get_go_more_parts_next_term_term_term_parts_throw)]
    fn term(&mut self, draft: &mut Program, depth: usize) -> Result<u16, TextFault>
        ensures { (k : List Want) (vs : List ℕ) → Led result (at self.old draft.old (want_item Terms ∷ k) vs depth) (λ n. at self.new draft.new k (n ∷ vs) depth) }
    {
        let (number, form) = self.begin(&mut draft.terms, Term::Num(0), Sort::Terms, depth)?;
        let node = self.term_parts(draft, form, depth)?;
        self.stop(form.last())?;
        draft.terms.set(usize::from(number), node);
        Ok(number)
    }
}

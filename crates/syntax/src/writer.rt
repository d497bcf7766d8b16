// Writes types and terms from tables.
ghost use Rattle.std.specs.Prelude.{◌≡◌, ◌≤◌, length, map};
ghost use Rattle.lines.specs.Writing.{Writes};
ghost use Rattle.syntax.specs.Place.{tables};
ghost use Rattle.syntax.specs.Spelt.{type_text, type_inner, world_text, term_text, term_inner};
ghost use Rattle.syntax.specs.Parts.{part_text, joined};
ghost use Rattle.syntax.specs.Views.{type_form, term_form, get_form};

use crate::grammar::Form;
use crate::program::{Mobile, Term, Ty, World};
use crate::table::Program;
use lines::pen::BufferPen;
use lines::refusal::Short;
use lines::writing::Printed;

// `form` is a method and no `From`: it is asked of a row that is at hand, and `Form` has no other name for it.
impl Ty {
    pub(crate) fn form(self) -> Form
        ensures { result ≡ type_form self }
    {
        match self {
            Ty::Num => Form::TNum,
            Ty::Never => Form::TNone,
            Ty::Fn { .. } => Form::TFn,
            Ty::Boxed(_) => Form::TBox,
            Ty::At(_) => Form::TAt,
            Ty::Both { .. } => Form::TBoth,
        }
    }
}

impl Term {
    pub(crate) fn form(self) -> Form
        ensures { result ≡ term_form self }
    {
        match self {
            Term::Num(_) => Form::Num,
            Term::Value(_) => Form::Val,
            Term::Lam { .. } => Form::Lam,
            Term::App { .. } => Form::App,
            Term::Boxed(_) => Form::Boxed,
            Term::Unbox(_) => Form::Unbox,
            Term::Here(_) => Form::Here,
            Term::Letd { .. } => Form::Letd,
            Term::Get { mobile, .. } => mobile.form(),
            Term::Pair { .. } => Form::Pair,
            Term::Fst(_) => Form::Fst,
            Term::Snd(_) => Form::Snd,
            Term::Letcc { .. } => Form::Letcc,
            Term::Throw { .. } => Form::Throw,
            Term::Go { .. } => Form::Go,
            Term::Gauge(_) => Form::Gauge,
            Term::Gate { .. } => Form::Gate,
            Term::Below { .. } => Form::Below,
        }
    }
}

impl Mobile {
    fn form(self) -> Form
        ensures { result ≡ get_form self }
    {
        match self {
            Mobile::Code => Form::Getb,
            Mobile::Address => Form::Getd,
            Mobile::Number => Form::Getn,
        }
    }
}

impl Printed for World {
    ghost text = { world_text };

    fn put(&self, pen: &mut BufferPen<'_>) -> Result<(), Short> {
        match *self {
            World::Site(site) => {
                pen.numbered(b"(site ", site as usize)?;
                pen.word(b")")
            }
            World::Bound(count) => {
                pen.numbered(b"(w ", count as usize)?;
                pen.word(b")")
            }
        }
    }
}

// A part of a type or of a term, as its text names it.
#[derive(Clone, Copy)]
enum Part {
    Number(u16),
    World(World),
    Ty(u16),
    Term(u16),
}

impl Program {
    #[cycle(put_part_put_parts_put_term_put_term_parts_put_type_put_type_parts)]
    fn put_part(&self, pen: &mut BufferPen<'_>, part: Part, left: usize) -> Result<(), Short>
        ensures { Writes pen.old (part_text left (tables self.now) part) result pen.new }
    {
        match part {
            Part::Number(number) => pen.number(number as usize),
            Part::World(world) => world.put(pen),
            Part::Ty(number) => self.put_type(pen, number, left),
            Part::Term(number) => self.put_term(pen, number, left),
        }
    }

    // Parts with a space between each two.
    #[cycle(put_part_put_parts_put_term_put_term_parts_put_type_put_type_parts)]
    fn put_parts(&self, pen: &mut BufferPen<'_>, parts: &[Part], left: usize) -> Result<(), Short>
        requires { length parts.now ≤ 5 }
        ensures { Writes pen.old (joined (map (part_text left (tables self.now)) parts.now)) result pen.new }
    {
        match parts {
            [] => Ok(()),
            [part] => self.put_part(pen, *part, left),
            [part, others @ ..] => {
                self.put_part(pen, *part, left)?;
                pen.word(b" ")?;
                self.put_parts(pen, others, left)
            }
        }
    }

    #[cycle(put_part_put_parts_put_term_put_term_parts_put_type_put_type_parts)]
    fn put_type_parts(&self, pen: &mut BufferPen<'_>, node: Ty, left: usize) -> Result<(), Short>
        ensures { Writes pen.old (type_inner node (type_text left (tables self.now).types)) result pen.new }
    {
        match node {
            Ty::Num | Ty::Never => Ok(()),
            Ty::Boxed(part) | Ty::At(part) => self.put_type(pen, part, left),
            Ty::Fn { from, to } => self.put_parts(pen, &[Part::Ty(from), Part::Ty(to)], left),
            Ty::Both { left: one, right } => self.put_parts(
                pen,
                &[Part::Ty(one), Part::Ty(right)],
                left,
            ),
        }
    }

    // The type with a number, to a depth.
    #[cycle(put_part_put_parts_put_term_put_term_parts_put_type_put_type_parts)]
    fn put_type(&self, pen: &mut BufferPen<'_>, number: u16, left: usize) -> Result<(), Short>
        ensures { Writes pen.old (type_text left (tables self.now).types number) result pen.new }
    {
        if left == 0 {
            return Ok(());
        }
        let node = self.type_at(number);
        let form = node.form();
        pen.word(form.word())?;
        self.put_type_parts(pen, node, left - 1)?;
        pen.word(&[form.last()])
    }

    #[cycle(put_part_put_parts_put_term_put_term_parts_put_type_put_type_parts)]
    fn put_term_parts(&self, pen: &mut BufferPen<'_>, node: Term, left: usize) -> Result<(), Short>
        ensures { Writes pen.old (term_inner node (type_text left (tables self.now).types) (term_text left (tables self.now).types (tables self.now).terms)) result pen.new }
    {
        match node {
            Term::Num(n) | Term::Value(n) | Term::Gauge(n) => pen.number(n as usize),
            Term::Boxed(part)
            | Term::Unbox(part)
            | Term::Here(part)
            | Term::Fst(part)
            | Term::Snd(part) => self.put_term(pen, part, left),
            Term::Lam { written, body } | Term::Letcc { written, body } => self.put_parts(
                pen,
                &[Part::Ty(written), Part::Term(body)],
                left,
            ),
            Term::App {
                function: one,
                argument: other,
            }
            | Term::Letd {
                address: one,
                body: other,
            }
            | Term::Pair {
                left: one,
                right: other,
            } => self.put_parts(pen, &[Part::Term(one), Part::Term(other)], left),
            Term::Get { world, part, .. } => self.put_parts(
                pen,
                &[Part::World(world), Part::Term(part)],
                left,
            ),
            Term::Throw {
                written,
                continuation,
                part,
            } => self.put_parts(
                pen,
                &[
                    Part::Ty(written),
                    Part::Number(continuation),
                    Part::Term(part),
                ],
                left,
            ),
            Term::Go {
                written,
                world,
                part,
            } => self.put_parts(
                pen,
                &[Part::Ty(written), Part::World(world), Part::Term(part)],
                left,
            ),
            Term::Gate { number, part } => self.put_parts(
                pen,
                &[Part::Number(number), Part::Term(part)],
                left,
            ),
            Term::Below {
                written,
                left: one,
                right,
                less,
                otherwise,
            } => self.put_parts(
                pen,
                &[
                    Part::Ty(written),
                    Part::Term(one),
                    Part::Term(right),
                    Part::Term(less),
                    Part::Term(otherwise),
                ],
                left,
            ),
        }
    }

    // The term with a number, to a depth.
    #[cycle(put_part_put_parts_put_term_put_term_parts_put_type_put_type_parts)]
    pub(crate) fn put_term(
        &self,
        pen: &mut BufferPen<'_>,
        number: u16,
        left: usize,
    ) -> Result<(), Short>
        ensures { Writes pen.old (term_text left (tables self.now).types (tables self.now).terms number) result pen.new }
    {
        if left == 0 {
            return Ok(());
        }
        let node = self.term_at(number);
        pen.word(node.form().word())?;
        self.put_term_parts(pen, node, left - 1)?;
        pen.word(b")")
    }
}

// A place in a text, and what is read there: bytes, numbers, words and worlds.
ghost use Rattle.std.specs.Prelude.{◌≡◌, ℕ, ◌+◌, ◌<◌, ◌≤◌, true, false, List, [], ◌∷◌, ◌++◌, length, IfOk, if◌then◌else◌, OnOk, slice_index, take_while, ◌==◌};
ghost use Rattle.std.specs.List.{zip};
ghost use Rattle.syntax.specs.Grammar.{Want, Stop, byte, words, wants, last as last_byte, spelling, spelled_out};
ghost use Rattle.syntax.specs.Grammar.Want.{stop as want_stop, number as want_number, item as want_item, word as want_word};
ghost use Rattle.syntax.specs.Reading.{Seen, passed, push, digit, opened, full, begun};
ghost use Rattle.syntax.specs.Reading.Outcome.{done, refused};
ghost use Rattle.syntax.specs.Texts.{Apart, In};
ghost use Rattle.syntax.specs.Views.{rest, from, Led, Peeked, Found, Clear, kind_of, count_of};
ghost use Rattle.syntax.specs.declared.grammar.Sort.TheVariants.{Worlds, Further};
ghost use Rattle.syntax.specs.declared.grammar.Form.TheVariants.{Run};

use crate::grammar::{Form, Sort};
use crate::program::World;
use lines::refusal::TextFault;

// How many brackets may be open, the largest number, and the largest count of registers.
const DEEPEST: usize = 64;

const LARGEST: u32 = 65535;

const MOST: u32 = 32;

#[derive(Drop)]
pub(crate) struct Reader<'a> {
    pub(crate) text: &'a [u8],
    pub(crate) place: usize,
}

impl Reader<'_> {
    // The byte here: a text that ends here ends early.
    fn peek(&self) -> Result<u8, TextFault>
        ensures { Peeked self.now result }
    {
        self.text
            .get(self.place)
            .copied()
            .ok_or(TextFault::Grammar(self.place))
    }

    // Takes the byte b.
    pub(crate) fn stop(&mut self, b: u8) -> Result<(), TextFault>
        ensures { (a : Stop) (k : List Want) (s : Seen) → byte a ≡ b → Led result (from self.old (want_stop a ∷ k) s) (λ _. from self.new k (passed a s)) }
    {
        let c = self.peek()?;
        if c != b {
            return Err(TextFault::Grammar(self.place));
        }
        self.place += 1;
        Ok(())
    }

    // A number with no leading zero, at most 65,535; a count of registers is at most 32. `counts` is one test in the loop, and the same
    // flag in the definition of reading: two functions would differ in that test alone.
    pub(crate) fn number(&mut self, counts: bool) -> Result<u16, TextFault>
        ensures few { IfOk result (λ v. counts ≡ true → v ≤ 32) }
        ensures led { (a : Stop) (k : List Want) (s : Seen) → digit (byte a) ≡ false → Led result (from self.old (want_number counts a ∷ k) s) (λ v. from self.new (want_stop a ∷ k) (push v s)) }
    {
        let start = self.place;
        let c = self.peek()?;
        if !c.is_ascii_digit() {
            return Err(TextFault::Grammar(start));
        }
        self.place += 1;
        let mut value = u32::from(c - b'0');
        if value == 0 {
            return Ok(0);
        }
        loop {
            let c = self.peek()?;
            if !c.is_ascii_digit() {
                return Ok(value as u16);
            }
            value = value * 10 + u32::from(c - b'0');
            if value > LARGEST {
                return Err(TextFault::Grammar(self.place));
            }
            if counts && value > MOST {
                return Err(TextFault::Sheet(start));
            }
            self.place += 1;
        }
    }

    // An item of the sort begins here, a bracket inside fewer than 64 others.
    pub(crate) fn first(&mut self, sort: Sort, depth: usize) -> Result<(), TextFault>
        ensures led { (k : List Want) (s : Seen) → s.depth ≡ depth → Led result (from self.old (want_item sort ∷ k) s) (λ _. (if full sort s then refused 13 self.old.place else from self.new (want_word sort (words sort) ∷ k) (begun sort s))) }
        ensures room { OnOk result (slice_index (rest self.new) 0 ≡ 40 → depth < 64) }
    {
        let c = self.peek()?;
        if !sort.begins(c) {
            return Err(TextFault::Grammar(self.place));
        }
        if c == b'(' && depth >= DEEPEST {
            return Err(TextFault::TooDeep(self.place));
        }
        Ok(())
    }

    // The word of one of the forms.
    fn pick(&mut self, forms: &[Form]) -> Result<Form, TextFault>
        ensures led { (o : Sort) (k : List Want) (s : Seen) → Apart (spelled_out forms.now) → Clear o s (spelled_out forms.now) → Led result (from self.old (want_word o (spelled_out forms.now) ∷ k) s) (λ f. from self.new (wants f k) (opened f s)) }
        ensures picked { IfOk result (λ f. In (spelling f) f (spelled_out forms.now) × (last_byte f ≡ 41 → slice_index (rest self.old) 0 ≡ 40)) }
    {
        self.peek()?;
        match find(forms, &self.text[self.place..]) {
            Ok(form) => {
                self.place += form.word().len();
                Ok(form)
            }
            Err(far) => Err(TextFault::Grammar(self.place + far)),
        }
    }

    // The word of a form of the sort.
    pub(crate) fn word(&mut self, sort: Sort) -> Result<Form, TextFault>
        ensures led { (k : List Want) (s : Seen) → Clear sort s (words sort) → Led result (from self.old (want_word sort (words sort) ∷ k) s) (λ f. from self.new (wants f k) (opened f s)) }
        ensures picked { IfOk result (λ f. In (spelling f) f (words sort) × (last_byte f ≡ 41 → slice_index (rest self.old) 0 ≡ 40)) }
    {
        self.pick(sort.forms())
    }

    // The word of the run line, on a full sheet: a station line is one too many.
    pub(crate) fn last_line(&mut self) -> Result<Form, TextFault>
        ensures led { (k : List Want) (s : Seen) → 16 ≤ length s.stations → Led result (from self.old (want_word Further (words Further) ∷ k) s) (λ f. from self.new (wants f k) (opened f s)) }
        ensures run { IfOk result (λ f. f ≡ Run) }
    {
        self.peek()?;
        if self.text[self.place..].starts_with(b"(s") {
            return Err(TextFault::Sheet(self.place));
        }
        self.pick(&[Form::Run])
    }

    // No byte is left.
    pub(crate) fn end(&mut self) -> Result<(), TextFault>
        ensures { (s : Seen) → Led result (from self.old [] s) (λ _. done s) }
    {
        if self.place < self.text.len() {
            return Err(TextFault::Grammar(self.place));
        }
        Ok(())
    }

    // A world.
    pub(crate) fn world(&mut self, depth: usize) -> Result<World, TextFault>
        ensures { (k : List Want) (s : Seen) → s.depth ≡ depth → Led result (from self.old (want_item Worlds ∷ k) s) (λ w. from self.new k (push (kind_of w) (push (count_of w) s))) }
    {
        self.first(Sort::Worlds, depth)?;
        let form = self.word(Sort::Worlds)?;
        let count = self.number(false)?;
        self.stop(form.last())?;
        match form {
            Form::Site => Ok(World::Site(count)),
            Form::Bound => Ok(World::Bound(count)),
            _ => unreachable(),
        }
    }
}

// The form whose word the text begins with, or how far the words go with it: two answers of one pass, which a chain would make twice.
fn find(forms: &[Form], text: &[u8]) -> Result<Form, usize>
    ensures { Found forms.now text.now result }
{
    let mut far = 0;
    for form in forms {
        let word = form.word();
        let n = agree(word, text);
        if n == word.len() {
            return Ok(*form);
        }
        far = far.max(n);
    }
    Err(far)
}

// How many bytes of the word the text begins with.
fn agree(word: &[u8], text: &[u8]) -> usize
    ensures { result ≡ length (take_while (λ p. p.1 == p.0) (zip word.now text.now)) }
{
    word.iter().zip(text).take_while(|(w, c)| c == w).count()
}

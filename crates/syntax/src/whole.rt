// Reads the lines of a text.
ghost use Rattle.std.specs.Prelude.{◌≡◌, ℕ, ◌+◌, ◌<◌, true, false, List, [], ◌∷◌, length, IfOk, OnOk, nat_le};
ghost use Rattle.instruments.specs.Sheets.{stations_of};
ghost use Rattle.syntax.specs.Grammar.{Want, wants};
ghost use Rattle.syntax.specs.Grammar.Want.{item as want_item};
ghost use Rattle.syntax.specs.Reading.{Seen, go as go_on, start_none, opened};
ghost use Rattle.syntax.specs.Reading.Outcome.{done};
ghost use Rattle.syntax.specs.Views.{Led, from, at, inside, seen};
ghost use Rattle.syntax.specs.Place.{tables};
ghost use Rattle.syntax.specs.declared.grammar.Form.TheVariants.{Station, Run};
ghost use Rattle.syntax.specs.declared.grammar.Sort.TheVariants.{First, Further};

use crate::grammar::{Form, Sort};
use crate::reader::Reader;
use crate::table::Program;
use instruments::sheet::Sheet;
use lines::refusal::TextFault;

// How many stations a sheet may have.
const STATIONS: usize = 16;

impl Reader<'_> {
    // The first line is a station's.
    fn first_line(&mut self) -> Result<(), TextFault>
        ensures { (k : List Want) (s : Seen) → s.depth ≡ 0 → Led result (from self.old (want_item First ∷ k) s) (λ _. from self.new (wants Station k) (opened Station s)) }
    {
        self.first(Sort::First, 0)?;
        self.word(Sort::First)?;
        Ok(())
    }

    // A further line begins, with a station's word or the run line's. On a full sheet a station's is one too many.
    fn further_line(&mut self, sheet: &Sheet) -> Result<Form, TextFault>
        ensures led { (k : List Want) (s : Seen) → s.depth ≡ 0 → s.stations ≡ stations_of sheet.now → Led result (from self.old (want_item Further ∷ k) s) (λ f. from self.new (wants f k) (opened f s)) }
        ensures line { IfOk result (λ f. (f ≡ Station → ⊥) → f ≡ Run) }
        ensures room { IfOk result (λ f. f ≡ Station → length (stations_of sheet.now) < 16) }
    {
        self.first(Sort::Further, 0)?;
        if sheet.len() < STATIONS {
            self.word(Sort::Further)
        } else {
            self.last_line()
        }
    }

    // The counts of a station, up to the end of its line.
    fn station(&mut self, draft: &mut Program) -> Result<(), TextFault>
        requires { length (tables draft.old).stations < 16 }
        ensures led { (k : List Want) (vs : List ℕ) → Led result (inside self.old draft.old Station (wants Station k) vs 0) (λ _. at self.new draft.new (want_item Further ∷ k) vs 0) }
        ensures more { OnOk result (length (tables draft.new).stations ≡ length (tables draft.old).stations + 1) }
    {
        let gauges = self.number(true)?;
        self.stop(b' ')?;
        let gates = self.number(true)?;
        self.stop(b')')?;
        self.stop(b'\n')?;
        draft.add_station(gauges, gates);
        Ok(())
    }

    // The site and the term of the run line, up to its end.
    fn run(&mut self, draft: &mut Program) -> Result<(), TextFault>
        ensures { (k : List Want) (vs : List ℕ) → Led result (inside self.old draft.old Run (wants Run k) vs 0) (λ _. at self.new draft.new k vs 0) }
    {
        let site = self.number(false)?;
        self.next_term(draft, 1)?;
        self.stop(b')')?;
        self.stop(b'\n')?;
        draft.start = site;
        Ok(())
    }

    // A whole text: a station line, further lines of which the last is the run line, and no more.
    fn text(&mut self, draft: &mut Program) -> Result<(), TextFault>
        requires { length (tables draft.old).stations < 16 }
        ensures { Led result (at self.old draft.old (want_item First ∷ []) [] 0) (λ _. done (seen (tables draft.new) [] 0)) }
    {
        self.first_line()?;
        self.station(draft)?;
        while let Form::Station = self.further_line(&draft.sheet)? {
            self.station(draft)?;
        }
        self.run(draft)?;
        self.end()
    }
}

// Reads a text into tables, whatever they held.
pub(crate) fn read_into(text: &[u8], draft: &mut Program) -> Result<(), TextFault>
    ensures { Led result (go_on text.now (want_item First ∷ []) start_none 0) (λ _. done (seen (tables draft.new) [] 0)) }
{
    draft.clear();
    let mut reader = Reader { text, place: 0 };
    reader.text(draft)
}

// How each form is spelled.
ghost use Rattle.std.specs.Prelude.{◌≡◌};
ghost use Rattle.syntax.specs.Grammar.{last, spelling, forms as sort_forms};
ghost use Rattle.syntax.specs.Views.{begins_item};

use crate::grammar::{Form, Sort};

impl Sort {
    // Whether an item of the sort may begin with the byte.
    pub(crate) fn begins(self, c: u8) -> bool
        ensures { result ≡ begins_item self c }
    {
        match self {
            Sort::Types => c == b'(' || c == b'n',
            _ => c == b'(',
        }
    }

    pub(crate) fn forms(self) -> &'static [Form]
        ensures { result.now ≡ sort_forms self }
    {
        match self {
            Sort::Types => &[
                Form::TNum,
                Form::TNone,
                Form::TFn,
                Form::TBox,
                Form::TAt,
                Form::TBoth,
            ],
            Sort::Worlds => &[Form::Site, Form::Bound],
            Sort::Terms => &[
                Form::Num,
                Form::Val,
                Form::Lam,
                Form::App,
                Form::Boxed,
                Form::Unbox,
                Form::Here,
                Form::Letd,
                Form::Getb,
                Form::Getd,
                Form::Getn,
                Form::Pair,
                Form::Fst,
                Form::Snd,
                Form::Letcc,
                Form::Throw,
                Form::Go,
                Form::Gauge,
                Form::Gate,
                Form::Below,
            ],
            Sort::First => &[Form::Station],
            Sort::Further => &[Form::Station, Form::Run],
        }
    }
}

impl Form {
    // The bytes up to the form's first part, or up to its last byte.
    pub(crate) fn word(self) -> &'static [u8]
        ensures { result.now ≡ spelling self }
    {
        match self {
            Form::TNum => b"nu",
            Form::TNone => b"non",
            Form::TFn => b"(fn ",
            Form::TBox => b"(box ",
            Form::TAt => b"(at ",
            Form::TBoth => b"(both ",
            Form::Site => b"(site ",
            Form::Bound => b"(w ",
            Form::Num => b"(num ",
            Form::Val => b"(v ",
            Form::Lam => b"(lam ",
            Form::App => b"(app ",
            Form::Boxed => b"(box ",
            Form::Unbox => b"(unbox ",
            Form::Here => b"(here ",
            Form::Letd => b"(letd ",
            Form::Getb => b"(getb ",
            Form::Getd => b"(getd ",
            Form::Getn => b"(getn ",
            Form::Pair => b"(pair ",
            Form::Fst => b"(fst ",
            Form::Snd => b"(snd ",
            Form::Letcc => b"(letcc ",
            Form::Throw => b"(throw ",
            Form::Go => b"(go ",
            Form::Gauge => b"(gauge ",
            Form::Gate => b"(gate ",
            Form::Below => b"(below ",
            Form::Station => b"(station ",
            Form::Run => b"(run ",
        }
    }

    // The byte that ends the form.
    pub(crate) fn last(self) -> u8
        ensures { result ≡ last self }
    {
        match self {
            Form::TNum => b'm',
            Form::TNone => b'e',
            _ => b')',
        }
    }
}

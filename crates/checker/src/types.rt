// Types by their numbers. The first rows of a table are the types that are written in the text, whose parts have larger numbers;
// behind them stand the types that the checker builds, whose parts stand before them. No type is ever copied, so that no derived `==`
// compares two: `same` goes along the rows.
ghost use Rattle.std.specs.Prelude.{◌≡◌, ◌<◌, length, true};
ghost use Rattle.checker.specs.Typed.{table_test};
ghost use Rattle.checker.specs.TypeTable.{meaning};
ghost use Rattle.checker.specs.Comparing.{alike};

use syntax::program::Ty;

// The rows of a table that is in order, and how many of them are written in the text.
#[derive(Clone, Copy)]
pub(crate) struct TypeRows<'a> {
    pub(crate) rows: &'a [Ty],
    pub(crate) written: usize,
    ghost laid: { table_test written rows.now ≡ true },
}

impl TypeRows<'_> {
    // Whether type `a` of a table is the written type `b`: their words agree and their parts are equal in turn. It goes along the
    // written type, whose parts have larger numbers.
    pub(crate) fn same(&self, a: u16, b: u16) -> bool
        requires left { a < length self.now.rows.now }
        requires right { b < self.now.written }
        ensures { result ≡ alike (meaning self.now.written self.now.rows.now a) (meaning self.now.written self.now.rows.now b) }
    {
        match (self.rows[a as usize], self.rows[b as usize]) {
            (Ty::Num, Ty::Num) => true,
            (Ty::Never, Ty::Never) => true,
            (Ty::Fn { from: p, to: r }, Ty::Fn { from: q, to: s }) => self.same(p, q)
                && self.same(r, s),
            (Ty::Boxed(p), Ty::Boxed(q)) => self.same(p, q),
            (Ty::At(p), Ty::At(q)) => self.same(p, q),
            (Ty::Both { left: p, right: r }, Ty::Both { left: q, right: s }) => self.same(p, q)
                && self.same(r, s),
            _ => false,
        }
    }
}

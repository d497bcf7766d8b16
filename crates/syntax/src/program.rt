// The tables of a program, and no tree of boxes: a refusal names a term by its number, and no memory is taken while a text is read.
// Types and terms are numbered from 0 in the order of their first bytes, and name their parts by these
// numbers. Bound values, worlds and continuations are named by counts, separately, the innermost being 0.

// A type. `Never` is written `none`.
#[derive(Clone, Copy)]
pub enum Ty {
    Num,
    Never,
    Fn { from: u16, to: u16 },
    Boxed(u16),
    At(u16),
    Both { left: u16, right: u16 },
}

#[derive(Clone, Copy)]
pub enum World {
    Site(u16),
    Bound(u16),
}

// What a get brings: code (`getb`), an address (`getd`) or a number (`getn`).
#[derive(Clone, Copy)]
pub enum Mobile {
    Code,
    Address,
    Number,
}

// A term. `written` is the number of a type that stands in the text, the other parts are numbers of terms.
#[derive(Clone, Copy)]
pub enum Term {
    Num(u16),
    Value(u16),
    Lam {
        written: u16,
        body: u16,
    },
    App {
        function: u16,
        argument: u16,
    },
    Boxed(u16),
    Unbox(u16),
    Here(u16),
    Letd {
        address: u16,
        body: u16,
    },
    Get {
        mobile: Mobile,
        world: World,
        part: u16,
    },
    Pair {
        left: u16,
        right: u16,
    },
    Fst(u16),
    Snd(u16),
    Letcc {
        written: u16,
        body: u16,
    },
    Throw {
        written: u16,
        continuation: u16,
        part: u16,
    },
    Go {
        written: u16,
        world: World,
        part: u16,
    },
    Gauge(u16),
    Gate {
        number: u16,
        part: u16,
    },
    Below {
        written: u16,
        left: u16,
        right: u16,
        less: u16,
        otherwise: u16,
    },
}

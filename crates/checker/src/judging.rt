// Judging terms: the type of each, or the first refusal. A term's parts are judged in the order of the text, and each is held to the
// type that it needs as soon as it is typed.
ghost use Rattle.std.specs.Prelude.{◌≡◌, ◌<◌};
ghost use Rattle.syntax.specs.declared.program.Term.TheVariants as Row;
ghost use Rattle.checker.specs.Scopes.{meaning_of, Kept};
ghost use Rattle.checker.specs.Judging.{Asks, AsksRow, size, verdict_at, Judged, Judges, JudgesRow, Held, Same, Under};
ghost use Rattle.calculus.specs.Types.{num, none};

use crate::binding::Scope;
use crate::context::{At, Context, Height};
use crate::lookups::{bound_at, register_at};
use crate::spot::Spot;
use lines::refusal::{CheckFault, Instrument};
use syntax::program::{Mobile, Term, Ty, World};

impl Context {
    // The number of a term's type at a world.
    #[cycle(judging)]
    pub(crate) fn judge(&mut self, spot: Spot, world: At) -> Result<u16, CheckFault>
        requires { Asks self.old spot.setting.now.terms.now spot.term }
        ensures { Judges self.old spot.entry world result self.new }
    {
        let row = spot.setting.terms[spot.term as usize];
        match row {
            Term::Num(n) => self.numeral(spot, world, n),
            Term::Value(count) => self.value(spot, world, count),
            Term::Lam { written, body } => self.lam(spot, world, written, body),
            Term::App { function, argument } => self.app(spot, world, function, argument),
            Term::Boxed(body) => self.boxed(spot, world, body),
            Term::Unbox(part) => self.unbox(spot, world, part),
            Term::Here(part) => self.here(spot, world, part),
            Term::Letd { address, body } => self.letd(spot, world, address, body),
            Term::Get {
                mobile,
                world: there,
                part,
            } => self.get(spot, world, mobile, there, part),
            Term::Pair { left, right } => self.pair(spot, world, left, right),
            Term::Fst(part) => self.fst(spot, world, part),
            Term::Snd(part) => self.snd(spot, world, part),
            Term::Letcc { written, body } => self.letcc(spot, world, written, body),
            Term::Throw {
                written,
                continuation,
                part,
            } => self.throw(spot, world, written, continuation, part),
            Term::Go {
                written,
                world: there,
                part,
            } => self.go(spot, world, written, there, part),
            Term::Gauge(number) => self.gauge(spot, world, number),
            Term::Gate { number, part } => self.gate(spot, world, number, part),
            Term::Below {
                written,
                left,
                right,
                less,
                otherwise,
            } => self.below(spot, world, written, left, right, less, otherwise),
        }
    }

    // Judges a term inside a binder, and ends the binder's scope on every way out.
    #[cycle(judging)]
    fn judge_under(&mut self, spot: Spot, world: At, height: Height) -> Result<u16, CheckFault>
        requires asks { Asks self.old spot.setting.now.terms.now spot.term }
        requires under { Under height self.old.height }
        ensures judged { Judged self.old (verdict_at self.old spot.entry world) result (size spot.entry.setting.now.terms.now spot.entry.term) self.new }
        ensures height { self.new.height ≡ height }
        ensures kept { Kept height self.old self.new }
    {
        let scope = Scope {
            context: self,
            height,
        };
        let number = scope.context.judge(spot, world)?;
        Ok(number)
    }

    // Judges a part and holds it to a written type.
    #[cycle(judging)]
    fn judge_as(&mut self, spot: Spot, world: At, needed: u16) -> Result<u16, CheckFault>
        requires asks { Asks self.old spot.setting.now.terms.now spot.term }
        requires needed { needed < self.old.written }
        ensures held { Held self.old (verdict_at self.old spot.entry world) (meaning_of self.old needed) spot.entry.term result (size spot.entry.setting.now.terms.now spot.entry.term) self.new }
        ensures same { Same self.old self.new }
    {
        let given = self.judge(spot, world)?;
        self.expect(given, needed, spot.term)?;
        Ok(given)
    }

    // Judges a part that has to be a number.
    #[cycle(judging)]
    fn judge_num(&mut self, spot: Spot, world: At) -> Result<u16, CheckFault>
        requires { Asks self.old spot.setting.now.terms.now spot.term }
        ensures held { Held self.old (verdict_at self.old spot.entry world) num spot.entry.term result (size spot.entry.setting.now.terms.now spot.entry.term) self.new }
        ensures same { Same self.old self.new }
    {
        let given = self.judge(spot, world)?;
        let Ty::Num = self.row(given) else {
            return Err(CheckFault::Mismatch(spot.term as usize));
        };
        Ok(given)
    }

    // A number.
    fn numeral(&mut self, spot: Spot, world: At, n: u16) -> Result<u16, CheckFault>
        requires { AsksRow self.old spot (Row.Num n) }
        ensures { JudgesRow self.old spot.entry (Row.Num n) world result self.new }
    {
        Ok(self.build(Ty::Num))
    }

    // A bound value, which has to be bound at this world.
    fn value(&mut self, spot: Spot, world: At, count: u16) -> Result<u16, CheckFault>
        requires { AsksRow self.old spot (Row.Value count) }
        ensures { JudgesRow self.old spot.entry (Row.Value count) world result self.new }
    {
        let Some(found) = bound_at(self.bound_values(), count) else {
            return Err(CheckFault::Unbound(spot.term as usize));
        };
        if found.world == world {
            Ok(found.ty)
        } else {
            Err(CheckFault::Elsewhere(spot.term as usize))
        }
    }

    // A function: its body with a value of the written type.
    #[cycle(judging)]
    fn lam(&mut self, spot: Spot, world: At, written: u16, body: u16) -> Result<u16, CheckFault>
        requires { AsksRow self.old spot (Row.Lam written body) }
        ensures { JudgesRow self.old spot.entry (Row.Lam written body) world result self.new }
    {
        let height = self.height;
        self.bind_value(written, world);
        let to = self.judge_under(Spot { term: body, ..spot }, world, height)?;
        Ok(self.build(Ty::Fn { from: written, to }))
    }

    // An application.
    #[cycle(judging)]
    fn app(
        &mut self,
        spot: Spot,
        world: At,
        function: u16,
        argument: u16,
    ) -> Result<u16, CheckFault>
        requires { AsksRow self.old spot (Row.App function argument) }
        ensures { JudgesRow self.old spot.entry (Row.App function argument) world result self.new }
    {
        let whole = self.judge(
            Spot {
                term: function,
                ..spot
            },
            world,
        )?;
        let Ty::Fn { from, to } = self.row(whole) else {
            return Err(CheckFault::Mismatch(function as usize));
        };
        self.judge_as(
            Spot {
                term: argument,
                ..spot
            },
            world,
            from,
        )?;
        Ok(to)
    }

    // Code: its body at a new world.
    #[cycle(judging)]
    fn boxed(&mut self, spot: Spot, world: At, body: u16) -> Result<u16, CheckFault>
        requires { AsksRow self.old spot (Row.Boxed body) }
        ensures { JudgesRow self.old spot.entry (Row.Boxed body) world result self.new }
    {
        let height = self.height;
        let level = height.worlds as u16;
        self.bind_world();
        let part = self.judge_under(Spot { term: body, ..spot }, At::Level(level), height)?;
        Ok(self.build(Ty::Boxed(part)))
    }

    // Opening code.
    #[cycle(judging)]
    fn unbox(&mut self, spot: Spot, world: At, part: u16) -> Result<u16, CheckFault>
        requires { AsksRow self.old spot (Row.Unbox part) }
        ensures { JudgesRow self.old spot.entry (Row.Unbox part) world result self.new }
    {
        let whole = self.judge(Spot { term: part, ..spot }, world)?;
        let Ty::Boxed(inner) = self.row(whole) else {
            return Err(CheckFault::Mismatch(part as usize));
        };
        Ok(inner)
    }

    // Publishing a value.
    #[cycle(judging)]
    fn here(&mut self, spot: Spot, world: At, part: u16) -> Result<u16, CheckFault>
        requires { AsksRow self.old spot (Row.Here part) }
        ensures { JudgesRow self.old spot.entry (Row.Here part) world result self.new }
    {
        let inner = self.judge(Spot { term: part, ..spot }, world)?;
        Ok(self.build(Ty::At(inner)))
    }

    // Opening an address: its body with a new world, and a value at that world.
    #[cycle(judging)]
    fn letd(&mut self, spot: Spot, world: At, address: u16, body: u16) -> Result<u16, CheckFault>
        requires { AsksRow self.old spot (Row.Letd address body) }
        ensures { JudgesRow self.old spot.entry (Row.Letd address body) world result self.new }
    {
        let whole = self.judge(
            Spot {
                term: address,
                ..spot
            },
            world,
        )?;
        let Ty::At(inner) = self.row(whole) else {
            return Err(CheckFault::Mismatch(address as usize));
        };
        let height = self.height;
        let level = height.worlds as u16;
        self.bind_world();
        self.bind_value(inner, At::Level(level));
        self.judge_under(Spot { term: body, ..spot }, world, height)
    }

    // Fetching from another world.
    #[cycle(judging)]
    fn get(
        &mut self,
        spot: Spot,
        world: At,
        mobile: Mobile,
        there: World,
        part: u16,
    ) -> Result<u16, CheckFault>
        requires { AsksRow self.old spot (Row.Get mobile there part) }
        ensures { JudgesRow self.old spot.entry (Row.Get mobile there part) world result self.new }
    {
        let elsewhere = self.world_at(spot, there)?;
        let given = self.judge(Spot { term: part, ..spot }, elsewhere)?;
        if self.is_carried(mobile, given) {
            Ok(given)
        } else {
            Err(CheckFault::Mismatch(part as usize))
        }
    }

    // A pair.
    #[cycle(judging)]
    fn pair(&mut self, spot: Spot, world: At, left: u16, right: u16) -> Result<u16, CheckFault>
        requires { AsksRow self.old spot (Row.Pair left right) }
        ensures { JudgesRow self.old spot.entry (Row.Pair left right) world result self.new }
    {
        let first = self.judge(Spot { term: left, ..spot }, world)?;
        let second = self.judge(
            Spot {
                term: right,
                ..spot
            },
            world,
        )?;
        Ok(self.build(Ty::Both {
            left: first,
            right: second,
        }))
    }

    // The first half of a pair.
    #[cycle(judging)]
    fn fst(&mut self, spot: Spot, world: At, part: u16) -> Result<u16, CheckFault>
        requires { AsksRow self.old spot (Row.Fst part) }
        ensures { JudgesRow self.old spot.entry (Row.Fst part) world result self.new }
    {
        let whole = self.judge(Spot { term: part, ..spot }, world)?;
        let Ty::Both { left, .. } = self.row(whole) else {
            return Err(CheckFault::Mismatch(part as usize));
        };
        Ok(left)
    }

    // The second half of a pair.
    #[cycle(judging)]
    fn snd(&mut self, spot: Spot, world: At, part: u16) -> Result<u16, CheckFault>
        requires { AsksRow self.old spot (Row.Snd part) }
        ensures { JudgesRow self.old spot.entry (Row.Snd part) world result self.new }
    {
        let whole = self.judge(Spot { term: part, ..spot }, world)?;
        let Ty::Both { right, .. } = self.row(whole) else {
            return Err(CheckFault::Mismatch(part as usize));
        };
        Ok(right)
    }

    // Keeping the continuation.
    #[cycle(judging)]
    fn letcc(&mut self, spot: Spot, world: At, written: u16, body: u16) -> Result<u16, CheckFault>
        requires { AsksRow self.old spot (Row.Letcc written body) }
        ensures { JudgesRow self.old spot.entry (Row.Letcc written body) world result self.new }
    {
        let height = self.height;
        self.bind_continuation(written, world);
        let given = self.judge_under(Spot { term: body, ..spot }, world, height)?;
        self.expect(given, written, body)?;
        Ok(written)
    }

    // Resuming a continuation, with a part at its own world.
    #[cycle(judging)]
    fn throw(
        &mut self,
        spot: Spot,
        world: At,
        written: u16,
        continuation: u16,
        part: u16,
    ) -> Result<u16, CheckFault>
        requires { AsksRow self.old spot (Row.Throw written continuation part) }
        ensures { JudgesRow self.old spot.entry (Row.Throw written continuation part) world result self.new }
    {
        let Some(target) = bound_at(self.bound_continuations(), continuation) else {
            return Err(CheckFault::Unbound(spot.term as usize));
        };
        self.judge_as(Spot { term: part, ..spot }, target.world, target.ty)?;
        Ok(written)
    }

    // Going to another world for good.
    #[cycle(judging)]
    fn go(
        &mut self,
        spot: Spot,
        world: At,
        written: u16,
        there: World,
        part: u16,
    ) -> Result<u16, CheckFault>
        requires { AsksRow self.old spot (Row.Go written there part) }
        ensures { JudgesRow self.old spot.entry (Row.Go written there part) world result self.new }
    {
        let elsewhere = self.world_at(spot, there)?;
        let given = self.judge(Spot { term: part, ..spot }, elsewhere)?;
        let Ty::Never = self.row(given) else {
            return Err(CheckFault::Mismatch(part as usize));
        };
        Ok(written)
    }

    // Reading a gauge.
    fn gauge(&mut self, spot: Spot, world: At, number: u16) -> Result<u16, CheckFault>
        requires { AsksRow self.old spot (Row.Gauge number) }
        ensures { JudgesRow self.old spot.entry (Row.Gauge number) world result self.new }
    {
        register_at(spot, world, Instrument::Gauge, number)?;
        Ok(self.build(Ty::Num))
    }

    // Setting a gate.
    #[cycle(judging)]
    fn gate(&mut self, spot: Spot, world: At, number: u16, part: u16) -> Result<u16, CheckFault>
        requires { AsksRow self.old spot (Row.Gate number part) }
        ensures { JudgesRow self.old spot.entry (Row.Gate number part) world result self.new }
    {
        let given = self.judge_num(Spot { term: part, ..spot }, world)?;
        register_at(spot, world, Instrument::Gate, number)?;
        Ok(given)
    }

    // Comparing two numbers.
    #[cycle(judging)]
    fn below(
        &mut self,
        spot: Spot,
        world: At,
        written: u16,
        left: u16,
        right: u16,
        less: u16,
        otherwise: u16,
    ) -> Result<u16, CheckFault>
        requires { AsksRow self.old spot (Row.Below written left right less otherwise) }
        ensures { JudgesRow self.old spot.entry (Row.Below written left right less otherwise) world result self.new }
    {
        self.judge_num(Spot { term: left, ..spot }, world)?;
        self.judge_num(
            Spot {
                term: right,
                ..spot
            },
            world,
        )?;
        self.judge_as(Spot { term: less, ..spot }, world, written)?;
        self.judge_as(
            Spot {
                term: otherwise,
                ..spot
            },
            world,
            written,
        )?;
        Ok(written)
    }
}

// Why a call is refused. Each layer has its own enum of faults, and `Refusal` holds them all; `?` turns one into the other.
ghost use Rattle.std.specs.Prelude.{◌≡◌};
ghost use Rattle.lines.specs.declared.refusal.StepFault.TheVariants.{Register as unanswered_register};
ghost use Rattle.lines.specs.declared.refusal.Refusal.TheVariants.{Text as a_text, Check as a_check, ShortBuffer as a_short, Run as a_run, Register as a_register, Image as an_image};

// A register does not answer.
#[derive(Clone, Copy)]
pub enum RegisterFault {
    NotFitted { site: usize, number: usize },
    Silent { site: usize, number: usize },
}

// Bytes are no bus image: their number, or the place of a bad byte.
#[derive(Clone, Copy)]
pub enum ImageFault {
    Length(usize),
    Byte(usize),
}

// A text is not read: the place of a byte.
#[derive(Clone, Copy)]
pub enum TextFault {
    TooLong,
    Grammar(usize),
    TooDeep(usize),
    TooMany(usize),
    Sheet(usize),
}

// A program is not accepted: the number of a term.
#[derive(Clone, Copy)]
pub enum CheckFault {
    Unbound(usize),
    Elsewhere(usize),
    Mismatch(usize),
    BoundWorld(usize),
    NotOnSheet(usize),
}

// The tables of a machine.
#[derive(Clone, Copy)]
pub enum Table {
    Frames,
    Bindings,
    Pairs,
    Published,
    Kept,
}

// The kinds of registers.
#[derive(Clone, Copy)]
pub enum Instrument {
    Gauge,
    Gate,
}

// A gauge or a gate that does not answer, with the fault that the works gave.
#[derive(Clone, Copy)]
pub struct Unanswered {
    pub instrument: Instrument,
    pub fault: RegisterFault,
}

// Why there is no step: a table lacks places, or a register does not answer.
#[derive(Clone, Copy)]
pub enum StepFault {
    Full(Table),
    Register(Unanswered),
}

// Why a run takes no further step, the site where the machine stands, and the steps before.
#[derive(Clone, Copy)]
pub struct RunFault {
    pub fault: StepFault,
    pub site: u16,
    pub steps: u32,
}

// A text does not fit into a buffer.
#[derive(Clone, Copy)]
pub struct Short;

#[derive(Clone, Copy)]
pub enum Refusal {
    Text(TextFault),
    Check(CheckFault),
    Nothing,
    AnotherSheet(usize),
    Run(RunFault),
    NotDone,
    ShortBuffer,
    Register(RegisterFault),
    Image(ImageFault),
}

// By hand, since what the derive of `thiserror` writes promises nothing, and `?` has to say which fault it turned.
impl From<TextFault> for Refusal {
    ghost from_gives = { λ e r. r ≡ a_text e };

    fn from(fault: TextFault) -> Refusal {
        Refusal::Text(fault)
    }
}

impl From<CheckFault> for Refusal {
    ghost from_gives = { λ e r. r ≡ a_check e };

    fn from(fault: CheckFault) -> Refusal {
        Refusal::Check(fault)
    }
}

impl From<Short> for Refusal {
    ghost from_gives = { λ _ r. r ≡ a_short };

    fn from(_short: Short) -> Refusal {
        Refusal::ShortBuffer
    }
}

impl From<RegisterFault> for Refusal {
    ghost from_gives = { λ e r. r ≡ a_register e };

    fn from(fault: RegisterFault) -> Refusal {
        Refusal::Register(fault)
    }
}

impl From<ImageFault> for Refusal {
    ghost from_gives = { λ e r. r ≡ an_image e };

    fn from(fault: ImageFault) -> Refusal {
        Refusal::Image(fault)
    }
}

impl From<Unanswered> for StepFault {
    ghost from_gives = { λ e r. r ≡ unanswered_register e };

    fn from(fault: Unanswered) -> StepFault {
        StepFault::Register(fault)
    }
}

impl From<RunFault> for Refusal {
    ghost from_gives = { λ e r. r ≡ a_run e };

    fn from(fault: RunFault) -> Refusal {
        Refusal::Run(fault)
    }
}

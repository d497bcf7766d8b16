// Reads a program text from standard input, checks it, starts it, runs it on the bus image `works.img`, and prints its type, where the
// machine stands then, and its answer; or why one of these is refused, which ends it.
#![tactic(auto)]

use anyhow::anyhow;
use checker::accepted::Accepted;
use checker::checking::check;
use checker::scopes::ScopeList;
use instruments::image::Image;
use instruments::makes::NoImage;
use lines::refusal::Refusal;
use machine::place::{Machine, Run};
use std::fs;
use std::io::{Read, Write};
use std::process::ExitCode;
use syntax::text::Text;

// Every line that is printed goes through a buffer of this many bytes.
const ROOM: usize = 1048576;

// The most steps that a program is given.
const BUDGET: u32 = 100000;

const IMAGE: &str = "works.img";

// What a text goes through: the text place, the scope list, the program place and the place for a machine.
#[derive(Drop)]
struct Desk {
    text: Text,
    scopes: ScopeList,
    program: Accepted,
    machine: Machine,
}

// Why there is no further line: a call is refused, or the program cannot go on.
#[derive(Drop)]
enum End {
    Refused(Refusal),
    Failed(anyhow::Error),
}

impl From<Refusal> for End {
    fn from(refusal: Refusal) -> End {
        End::Refused(refusal)
    }
}

impl From<anyhow::Error> for End {
    fn from(error: anyhow::Error) -> End {
        End::Failed(error)
    }
}

impl From<NoImage> for End {
    fn from(none: NoImage) -> End {
        match none {
            NoImage::Refused(fault) => End::Refused(Refusal::from(fault)),
            NoImage::Memory => End::Failed(anyhow!("out of memory")),
        }
    }
}

// Prints the first bytes of a buffer.
fn print(rt: &HostRuntime, out: &[u8], length: usize) -> anyhow::Result<()> {
    if length > out.len() {
        return Err(anyhow!("the answer is longer than its buffer"));
    }
    rt.stdout().write_all(&out[0..length])?;
    Ok(())
}

// Whether a run took a step, one that was refused at a later step among them.
fn moved(answer: &Result<Run, Refusal>) -> bool {
    match *answer {
        Ok(Run::Done { steps }) => steps > 0,
        Ok(Run::Spent { steps }) => steps > 0,
        Err(Refusal::Run(fault)) => fault.steps > 0,
        Err(_) => false,
    }
}

impl Desk {
    fn new(rt: &HostRuntime) -> anyhow::Result<Desk> {
        Ok(Desk {
            text: Text::new(rt.alloc())?,
            scopes: ScopeList::new(rt.alloc())?,
            program: Accepted::new(rt.alloc())?,
            machine: Machine::new(rt.alloc())?,
        })
    }

    // Runs what was started on the image, and writes the image back where its gates may have moved.
    fn work(&mut self, rt: &HostRuntime) -> Result<(), End> {
        let mut image = read_image(rt)?;
        self.machine.start(&self.program)?;
        let answer = self.machine.run(&mut image, BUDGET);
        if moved(&answer) {
            write_image(rt, &image)?;
        }
        answer?;
        Ok(())
    }

    // Prints the three lines, as far as nothing is refused.
    fn serve(&mut self, rt: &HostRuntime, bytes: &[u8], out: &mut [u8]) -> Result<(), End> {
        self.text.read(bytes)?;
        check(&self.text, &mut self.scopes, &mut self.program)?;
        let typed = self.program.write_type(out)?;
        print(rt, out, typed)?;
        self.work(rt)?;
        let stood = self.machine.write_stand(out)?;
        print(rt, out, stood)?;
        let answered = self.machine.write_answer(out)?;
        print(rt, out, answered)?;
        Ok(())
    }
}

fn read_image(rt: &HostRuntime) -> Result<Image, End> {
    let bytes = image_bytes(rt)?;
    let image = Image::new(rt.alloc(), bytes.as_slice())?;
    Ok(image)
}

fn image_bytes(rt: &HostRuntime) -> anyhow::Result<Vec<u8>> {
    let bytes = fs::read(rt, IMAGE)?;
    Ok(bytes)
}

fn write_image(rt: &HostRuntime, image: &Image) -> anyhow::Result<()> {
    fs::write(rt, IMAGE, image.bytes())?;
    Ok(())
}

fn run(rt: &HostRuntime) -> anyhow::Result<()> {
    let mut bytes = Vec::new(rt.alloc());
    rt.stdin().read_to_end(&mut bytes)?;
    let mut desk = Desk::new(rt)?;
    let mut out = vec![in rt.alloc(); 0u8; ROOM]?;
    match desk.serve(rt, bytes.as_slice(), out.as_mut_slice()) {
        Ok(()) => Ok(()),
        Err(End::Failed(error)) => Err(error),
        Err(End::Refused(refusal)) => match refusal.write_refused(out.as_mut_slice()) {
            Ok(length) => print(rt, out.as_slice(), length),
            Err(_) => Err(anyhow!("the refusal is longer than its buffer")),
        },
    }
}

// As in the other program, by hand: this and the check of a length are all that the two share, and no library of theirs would be plainer.
fn main(rt: HostRuntime) -> ExitCode {
    match run(&rt) {
        Ok(()) => ExitCode::SUCCESS,
        Err(error) => {
            let _ = eprintln!(rt; "gateway: {error}");
            ExitCode::FAILURE
        }
    }
}

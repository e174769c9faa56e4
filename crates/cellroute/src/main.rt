//! `cellroute`: from a design of standard cells in YAL, or one that is made, and the rules of a process to a layout in CIF; and what is wrong
//! with a layout.
#![tactic(auto)]

ghost use Rattle.choose_core.specs.Answers.{IsAsked};
ghost use Rattle.std.specs.Prelude.{◌<◌, ℕ, length};
ghost use Rattle.stock_styles.specs.Stocks.{MayChoose};

use choose_core::{Candidate, Choice, Chooser, Style};
use commands::{Word, run};
use geom_core::Name;
use shelf_io::{HostShelf, HostSink};
use std::alloc::{AllocError, Global};
use std::process::ExitCode;
use std::{env, fs, io};
use stock_styles::Stock;

/// The status for want of memory.
const MEMORY: u8 = 10;

fn main(rt: HostRuntime) -> ExitCode {
    // Where a standard file is closed, one of these takes its place, which can't be written. Else the layout's file would take it, and get the lines or the notes too.
    let _first = fs::open(&rt, "/");
    let _second = fs::open(&rt, "/");
    let _third = fs::open(&rt, "/");
    match done(&rt) {
        Ok(status) => ExitCode::from(status),
        Err(AllocError) => ExitCode::from(MEMORY),
    }
}

// Does what the words ask for, with the styles in stock, and gives the status.
fn done(rt: &HostRuntime) -> Result<u8, AllocError> {
    let words = words(rt)?;
    obeyed(rt, words.as_slice())
}

// A style of the stock, with its choice as it is stored.
fn styled(alloc: Global, stock: Stock, choice: Choice) -> Result<Style, AllocError>
    requires callable { (list : _) → IsAsked list.now → Choice.pre choice list }
    requires within { (list : _) (answer : ℕ) → IsAsked list.now → Choice.post choice list answer → answer < length list.now }
{
    let name = Name::new(stock.name().to_vec(alloc)?);
    Ok(Style {
        chooser: Chooser::new(name, choice),
        plan: stock.plan(alloc)?,
    })
}

// The same of these words.
fn obeyed(rt: &HostRuntime, words: &[Word]) -> Result<u8, AllocError> {
    let alloc = rt.alloc();
    let mut styles = Vec::with_capacity(alloc, Stock::ALL.len())?;
    for stock in Stock::ALL {
        let choice: Choice = Box::new(
            alloc,
            move |list: &[Candidate]| -> usize
                requires { IsAsked list.now }
                ensures chosen { MayChoose stock list.entry.now result }
                ensures within { result < length list.entry.now }
            { stock.choose(list) },
        )?;
        styles.push(styled(alloc, stock, choice)?)?;
    }
    let mut out = HostSink::new(rt);
    let errors = rt.stderr();
    let mut notes = HostSink::new(&errors);
    let mut shelf = HostShelf::new(alloc, rt);
    Ok(
        run(
            alloc,
            words,
            &mut shelf,
            &mut out,
            &mut notes,
            styles.as_slice(),
        )
        .status,
    )
}

// The words after the program's name. Where one is no UTF-8 there are none, which make no command.
fn words(rt: &HostRuntime) -> Result<Vec<Word>, AllocError> {
    let mut words = Vec::new(rt.alloc());
    let mut args = match env::args(rt) {
        Ok(args) => args,
        Err(error) if error.kind() == io::ErrorKind::OutOfMemory => return Err(AllocError),
        Err(_) => return Ok(words),
    };
    let _program = args.next();
    for text in args {
        if words.push(Word::new(text)).is_err() {
            return Err(AllocError);
        }
    }
    Ok(words)
}

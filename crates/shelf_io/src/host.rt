//! Real files and standard output. What they hold is untold: no clause says what a file gives or
//! takes.

ghost use Rattle.std.specs.Prelude.{◌≡◌, ◌<◌, ◌≤◌, List, ℕ, length, None, IfSome};

use crate::plan::raise;
use crate::traits::{Failed, Shelf, Sink};
use std::alloc::Global;
use std::fs::{self, Files, OpenOptions};
use std::io::{Print, Read, Seek, SeekFrom, Write};

/// The files of the system, by their paths. It keeps one count of failed reading and one of failed
/// writing; each stands for every name.
///
/// The file that was written last stays open, where there is memory for its name, until another is
/// begun or put to, a call that writes fails, or the shelf is dropped.
#[derive(Drop)]
pub struct HostShelf<'r, R: Files> {
    alloc: Global,
    system: &'r R,
    last: Option<OpenFile<R>>,
    reads: u64,
    writes: u64,
}

// A file that is open to be written at its end.
#[derive(Drop)]
struct OpenFile<R: Files> {
    name: String,
    file: R::File,
}

impl<'r, R: Files> HostShelf<'r, R> {
    /// The files that the runtime reaches. Nothing has failed yet. The memory is for the name of the
    /// file that was written last.
    pub fn new(alloc: Global, system: &'r R) -> HostShelf<'r, R>
        ensures reads { (name : List ℕ) → ⟦<HostShelf<'r, R> as Shelf>⟧.read_faults result name
            ≡ 0 }
        ensures writes { (name : List ℕ) → ⟦<HostShelf<'r, R> as Shelf>⟧.write_faults result name
            ≡ 0 }
    {
        HostShelf {
            alloc,
            system,
            last: None,
            reads: 0,
            writes: 0,
        }
    }
}

impl<'r, R: Files> Shelf for HostShelf<'r, R> {
    ghost holds = { λ shelf name. None };

    ghost read_faults = { λ shelf name. shelf.reads };

    ghost write_faults = { λ shelf name. shelf.writes };

    fn take(&mut self, name: &str, at: u64, into: &mut [u8]) -> Result<usize, Failed> {
        match read_at(self.system, name, at, into) {
            Some(n) => Ok(n),
            None => {
                self.reads = raise(self.reads);
                Err(Failed)
            }
        }
    }

    fn begin(&mut self, name: &str) -> Result<(), Failed> {
        self.last = None;
        match fs::create(self.system, name) {
            Ok(_) => Ok(()),
            Err(_) => {
                self.writes = raise(self.writes);
                Err(Failed)
            }
        }
    }

    fn put(&mut self, name: &str, piece: &[u8]) -> Result<usize, Failed> {
        match write_end(self.alloc, self.system, &mut self.last, name, piece) {
            Some(n) => Ok(n),
            None => {
                self.last = None;
                self.writes = raise(self.writes);
                Err(Failed)
            }
        }
    }
}

/// Reads once from place `at` of the file; `None` where the system reports an error.
fn read_at<R: Files>(system: &R, name: &str, at: u64, into: &mut [u8]) -> Option<usize>
    ensures { IfSome result (λ n. n ≤ length into.old) }
{
    let mut file = fs::open(system, name).ok()?;
    file.seek(SeekFrom::Start(at)).ok()?;
    file.read(into).ok()
}

/// Writes once at the end of a file that exists, which is the open one then where there is memory
/// for its name; `None` where the system reports an error, or takes nothing of a piece that is not
/// empty.
fn write_end<R: Files>(
    alloc: Global,
    system: &R,
    last: &mut Option<OpenFile<R>>,
    name: &str,
    piece: &[u8],
) -> Option<usize>
    ensures fits { IfSome result (λ n. n ≤ length piece.now) }
    ensures some { IfSome result (λ n. 0 < length piece.now → 0 < n) }
{
    if let Some(open) = last {
        if open.name.as_str() == name {
            return write_once(&mut open.file, piece);
        }
    }
    *last = None;
    let mut file = OpenOptions::new().append(true).open(system, name).ok()?;
    let n = write_once(&mut file, piece)?;
    *last = named(alloc, name, file);
    Some(n)
}

/// An open file with its name; `None`, and the file is closed, where there is no memory for it.
fn named<R: Files>(alloc: Global, name: &str, file: R::File) -> Option<OpenFile<R>> {
    let name = String::from_str(alloc, name).ok()?;
    Some(OpenFile { name, file })
}

/// Writes once to an open file; `None` where the system reports an error, or takes nothing of a
/// piece that is not empty.
fn write_once<F: Write>(file: &mut F, piece: &[u8]) -> Option<usize>
    ensures fits { IfSome result (λ n. n ≤ length piece.now) }
    ensures some { IfSome result (λ n. 0 < length piece.now → 0 < n) }
{
    let n = file.write(piece).ok()?;
    written(n, piece)
}

/// How much of the piece was written; `None` where it is nothing of a piece that is not empty.
fn written(n: usize, piece: &[u8]) -> Option<usize>
    ensures same { IfSome result (λ m. m ≡ n) }
    ensures some { IfSome result (λ m. 0 < length piece.now → 0 < m) }
{
    if n == 0 && !piece.is_empty() {
        return None;
    }
    Some(n)
}

/// The standard output. It keeps a count of failed puts.
#[derive(Drop)]
pub struct HostSink<'r, P: Print> {
    output: &'r P,
    failures: u64,
}

impl<'r, P: Print> HostSink<'r, P> {
    /// The standard output of the runtime. Nothing has failed yet.
    pub fn new(output: &'r P) -> HostSink<'r, P>
        ensures { ⟦<HostSink<'r, P> as Sink>⟧.faults result ≡ 0 }
    {
        HostSink {
            output,
            failures: 0,
        }
    }
}

impl<'r, P: Print> Sink for HostSink<'r, P> {
    ghost written = { λ sink. None };

    ghost faults = { λ sink. sink.failures };

    ghost same_place = { λ old new. Unit {0} };

    ghost else_same = { λ old new calm. Unit {0} };

    fn put(&mut self, piece: &[u8]) -> Result<usize, Failed> {
        match write_out(self.output, piece) {
            Some(n) => Ok(n),
            None => {
                self.failures = raise(self.failures);
                Err(Failed)
            }
        }
    }

    ghost place_here = { λ x. tt };

    ghost place_then = { λ x y z one two. tt };

    ghost same_here = { λ x. tt };

    ghost same_then = { λ x y z calm one two. tt };
}

/// Writes once; `None` where the system reports an error, or takes nothing of a piece that is not
/// empty.
fn write_out<P: Print>(output: &P, piece: &[u8]) -> Option<usize>
    ensures fits { IfSome result (λ n. n ≤ length piece.now) }
    ensures some { IfSome result (λ n. 0 < length piece.now → 0 < n) }
{
    let n = output.write_some(piece).ok()?;
    written(n, piece)
}

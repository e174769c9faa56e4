//! A file of a shelf as a sink.

ghost use Rattle.shelf_io.specs.OtherFiles.{FileSame, OthersSame};
ghost use Rattle.std.specs.Prelude.{◌≡◌};

use crate::traits::{Failed, Shelf, Sink};

/// A file of a shelf as what takes bytes at its end. What is told of it and its faults are those of writing under its name; all else of the shelf stays.
#[derive(Drop)]
pub struct FileSink<'s, 'n, S: Shelf> {
    shelf: &'s mut S,
    name: &'n str,
}

impl<'s, 'n, S: Shelf> FileSink<'s, 'n, S> {
    /// The file of this name.
    pub fn new(shelf: &'s mut S, name: &'n str) -> FileSink<'s, 'n, S>
        ensures shelf { result.shelf.ghost_name ≡ shelf.entry.ghost_name }
        ensures now { result.shelf.now ≡ shelf.old }
        ensures name { result.name.now ≡ name.now }
    {
        FileSink { shelf, name }
    }
}

impl<'s, 'n, S: Shelf> Sink for FileSink<'s, 'n, S> {
    ghost use Rattle.shelf_io.specs.OtherFiles.{others-same, others-then};
    ghost use Rattle.std.proofs.Common.{◌∙◌, refl};

    ghost written = { λ file. S.holds file.shelf.now file.name.now };

    ghost faults = { λ file. S.write_faults file.shelf.now file.name.now };

    ghost same_place = { λ old new. new.shelf.ghost_name ≡ old.shelf.ghost_name };

    ghost else_same = { λ old new calm. FileSame old.name.now new.name.now
        (OthersSame calm old.name.now (S.holds old.shelf.now) (S.holds new.shelf.now)
        (S.read_faults old.shelf.now) (S.read_faults new.shelf.now) (S.write_faults old.shelf.now) (S.write_faults new.shelf.now)) };

    fn put(&mut self, piece: &[u8]) -> Result<usize, Failed> {
        self.shelf.put(self.name, piece)
    }

    ghost place_here = { λ file. refl };

    ghost place_then = { λ x y z one two. two ∙ one };

    ghost same_here = { λ file. record { same_name = refl; others = others-same file.name.now (S.holds file.shelf.now) (S.read_faults file.shelf.now) (S.write_faults file.shelf.now) } };

    ghost same_then = { λ x y z calm one two. record { same_name = two.same_name ∙ one.same_name; others = others-then calm one.same_name one.others two.others } };
}

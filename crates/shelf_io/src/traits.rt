//! What a shelf of named files and a sink of lines promise to whoever reads and writes through
//! them.

ghost use Rattle.std.specs.Prelude.{◌≡◌, ◌≢◌, ◌<◌, ◌≤◌, List, ℕ, length, take, Option, Some, [], IfOk, OnOk, OnErr, Bool, true, is_ok};
ghost use Rattle.shelf_io.specs.Count.{Rose};
ghost use Rattle.shelf_io.specs.Told.{Gives, Refines, Emptied, appended};

/// The answer of a call on a shelf or a sink that failed, as a disk that is full or a name that is
/// lacking.
#[derive(Clone, Copy, Debug, PartialEq, Eq)]
pub struct Failed;

/// Named files, read a piece at a time from any place and written at their end.
///
/// A shelf tells what its files hold, or leaves it untold (`holds` is `None`). For each name it
/// counts the faults of reading and of writing; a call that answers `Ok` changes no count, and
/// counts never fall. A count that is kept as a u64 stays at its last value, so a call that fails
/// there need not raise it.
pub trait Shelf {
    /// The bytes under a name, where the shelf tells them.
    ghost holds: { Self → List ℕ → Option (List ℕ) };

    /// How many times reading under a name has failed.
    ghost read_faults: { Self → List ℕ → ℕ };

    /// How many times writing under a name has failed.
    ghost write_faults: { Self → List ℕ → ℕ };

    /// Fills a front of `into` with the bytes of the name from place `at` on, and gives how many
    /// there are: 0 exactly at or past the end. Failed comes only where the name's read count rose.
    /// The files stay as they are.
    fn take(&mut self, name: &str, at: u64, into: &mut [u8]) -> Result<usize, Failed>
        requires { 0 < length into.old }
        ensures fits { IfOk result (λ n. n ≤ length into.old) }
        ensures gives { IfOk result (λ n. (bytes : List ℕ) → holds self.old name.now ≡ Some bytes
            → Gives bytes at n into.new) }
        ensures files { holds self.new ≡ holds self.old }
        ensures writes { write_faults self.new ≡ write_faults self.old }
        ensures quiet { OnOk result (read_faults self.new ≡ read_faults self.old) }
        ensures cause { OnErr result (Rose (read_faults self.old name.now)
            (read_faults self.new name.now)) }
        ensures later { (n : List ℕ) → read_faults self.old n ≤ read_faults self.new n };

    /// Makes the name hold nothing, and makes the file where there is none. After Failed, which
    /// comes only where the name's write count rose, it holds what it held before or nothing. Other
    /// names stay as they are.
    fn begin(&mut self, name: &str) -> Result<(), Failed>
        ensures emptied { OnOk result (Refines (holds self.new name.now) (Some [])) }
        ensures failed { OnErr result (Emptied (holds self.old name.now)
            (holds self.new name.now)) }
        ensures others { (other : List ℕ) → other ≢ name.now
            → holds self.new other ≡ holds self.old other }
        ensures reads { read_faults self.new ≡ read_faults self.old }
        ensures quiet { OnOk result (write_faults self.new ≡ write_faults self.old) }
        ensures cause { OnErr result (Rose (write_faults self.old name.now)
            (write_faults self.new name.now)) }
        ensures later { (n : List ℕ) → write_faults self.old n ≤ write_faults self.new n };

    /// Puts a front of the piece at the end of the name's bytes and gives its length, which is 0
    /// only for an empty piece. After Failed, which comes only where the name's write count rose,
    /// nothing was put. Other names stay as they are.
    fn put(&mut self, name: &str, piece: &[u8]) -> Result<usize, Failed>
        ensures fits { IfOk result (λ n. n ≤ length piece.now) }
        ensures some { IfOk result (λ n. 0 < length piece.now → 0 < n) }
        ensures appended { IfOk result (λ n. Refines (holds self.new name.now) (appended
            (holds self.old name.now) (take n piece.now))) }
        ensures failed { OnErr result (Refines (holds self.new name.now)
            (holds self.old name.now)) }
        ensures others { (other : List ℕ) → other ≢ name.now
            → holds self.new other ≡ holds self.old other }
        ensures reads { read_faults self.new ≡ read_faults self.old }
        ensures quiet { OnOk result (write_faults self.new ≡ write_faults self.old) }
        ensures cause { OnErr result (Rose (write_faults self.old name.now)
            (write_faults self.new name.now)) }
        ensures later { (n : List ℕ) → write_faults self.old n ≤ write_faults self.new n };
}

/// A place where lines are written one after the other, as standard output.
///
/// A sink tells what was written, or leaves it untold. It counts its faults; a call that answers
/// `Ok` does not change the count, and the count never falls. Whatever else a sink has, as a shelf
/// with other files, a put leaves as it was (`else_same`).
pub trait Sink {
    /// All that was written, where the sink tells it.
    ghost written: { Self → Option (List ℕ) };

    /// How many times writing has failed.
    ghost faults: { Self → ℕ };

    /// The second is the same place as the first, as a file of the same shelf.
    ghost same_place: { Self → Self → Type 0 };

    /// Nothing else of the second differs from the first, counts included where the test holds.
    ghost else_same: { Self → Self → Bool → Type 0 };

    /// Writes a front of the piece and gives its length, which is 0 only for an empty piece. After
    /// Failed, which comes only where the count rose, nothing was written.
    fn put(&mut self, piece: &[u8]) -> Result<usize, Failed>
        ensures fits { IfOk result (λ n. n ≤ length piece.now) }
        ensures some { IfOk result (λ n. 0 < length piece.now → 0 < n) }
        ensures appended { IfOk result (λ n. Refines (written self.new) (appended (written self.old)
            (take n piece.now))) }
        ensures failed { OnErr result (Refines (written self.new) (written self.old)) }
        ensures quiet { OnOk result (faults self.new ≡ faults self.old) }
        ensures cause { OnErr result (Rose (faults self.old) (faults self.new)) }
        ensures later { faults self.old ≤ faults self.new }
        ensures place { same_place self.old self.new }
        ensures same { else_same self.old self.new (is_ok result) };

    /// Each is its own place, and that of one at the same place is the same.
    ghost place_here: { (x : Self) → same_place x x };

    ghost place_then: { (x y z : Self) → same_place x y → same_place y z → same_place x z };

    /// It does not differ from itself.
    ghost same_here: { (x : Self) → else_same x x true };

    /// What does not differ from one that does not differ does not.
    ghost same_then: { (x y z : Self) (calm : Bool) → else_same x y true → else_same y z calm
        → else_same x z calm };
}

//! A list that only contracts see.

ghost use Rattle.std.specs.Prelude.{◌≡◌, [], ◌∷◌, ◌++◌};

use std::marker::Model;
use std::snapshot::Snapshot;

/// What was added so far, in order. A contract sees the list of it; the program keeps nothing: a
/// past has no bytes.
#[derive(Drop)]
#[cycle(past)]
pub struct Past<T> {
    last: Snapshot<Last<T>>,
}

/// The last member and those before it, or that there is none.
#[derive(Drop)]
#[cycle(past)]
enum Last<T> {
    None,
    After(Snapshot<Past<T>>, Snapshot<T>),
}

impl<T> Model for Past<T> {
    ghost use Rattle.std.specs.Prelude.{List, length};
    ghost use Rattle.std.specs.Coded.{coded_list};

    ghost Value = { List T };

    ghost coded = { coded_list T.code };

    ghost use Rattle.cal_machine.specs.Past.{members};

    ghost view = { λ p. members p.last.value };

    ghost size = { length };

    ghost use Rattle.std.proofs.Common.{arith, length-append};

    ghost size_decreases = { λ a h. Prim.grind (arith, length-append) };
}

impl<T: Drop> Past<T> {
    /// Nothing so far.
    pub fn none() -> Past<T>
        ensures { result ≡ [] }
    {
        Past {
            last: Snapshot::of(&Last::None),
        }
    }

    /// Adds this one, which stays where it is.
    pub fn note(&mut self, one: &T)
        ensures { self.new ≡ self.old ++ one.entry.now ∷ [] }
    {
        let last = Last::After(Snapshot::of(self), Snapshot::of(one));
        self.last = Snapshot::of(&last);
    }

    /// Adds this one, and hands it back.
    pub fn add(&mut self, one: T) -> T
        ensures added { self.new ≡ self.old ++ one ∷ [] }
        ensures same { result ≡ one }
    {
        self.note(&one);
        one
    }
}

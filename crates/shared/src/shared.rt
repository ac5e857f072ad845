// What two tables share: their first tiles, their last tiles, and the number that such a tile has in the other table.
ghost use Rattle.std.specs.Prelude.{ℕ, true, ◌+◌, ◌<◌, ◌≤◌};

use plane::table::Table;
use slots::slots::Slots;

// The same for each of the four stitches of a tile: its word, what is known of it, or where it leads.
#[derive(Clone, Copy)]
pub struct Links<T> {
    pub lb: T,
    pub bl: T,
    pub tr: T,
    pub rt: T,
}

// The tiles that two tables share: the first `low` of both, and tiles `old` to `end` - 1 of the one, which are those from `new` on in the other.
#[derive(Clone, Copy)]
pub struct Shared {
    pub low: usize,
    pub old: usize,
    pub end: usize,
    pub new: usize,
    pub ghost parts: { (low ≤ old) × (low ≤ new) × (old ≤ end) × (new + end ≤ 65535 + old) },
}

impl<T: Copy> Links<T> {
    // What a step makes of each of the four.
    pub fn map<R, F: Fn(T) -> R>(self, f: F) -> Links<R>
        requires { F.pre f self.lb × F.pre f self.bl × F.pre f self.tr × F.pre f self.rt }
        ensures { F.post f self.lb result.lb × F.post f self.bl result.bl × F.post f self.tr result.tr × F.post f self.rt result.rt }
    {
        Links {
            lb: f(self.lb),
            bl: f(self.bl),
            tr: f(self.tr),
            rt: f(self.rt),
        }
    }
}

impl<T: Copy> Links<Option<T>> {
    ghost use Rattle.shared.specs.Shares.{AllKnown};

    // All four, if each is known.
    pub fn all(self) -> Option<Links<T>>
        ensures { AllKnown self result }
    {
        Some(Links {
            lb: self.lb?,
            bl: self.bl?,
            tr: self.tr?,
            rt: self.rt?,
        })
    }
}

impl Links<u16> {
    ghost use Rattle.shared.specs.Shares.{MovedLinks};

    // The numbers that the tiles of the four numbers have in the other table.
    pub fn moved(self, s: Shared) -> Links<Option<u16>>
        ensures { MovedLinks s self result }
    {
        self.map(|g| s.moved(g))
    }
}

impl Shared {
    ghost use Rattle.std.specs.Prelude.{◌≡◌};
    ghost use Rattle.shared.specs.Shares.{Alike, Moved};

    // The tiles that a table and the working slice share.
    pub fn of(table: &Table<'_>, work: Slots<'_>) -> Shared
        requires { work.count ≤ 65535 }
        ensures { Alike table.now work.entry.words.now work.entry.count result }
    {
        let t = Slots::from(table);
        let m = t.count;
        let n = work.count;
        let most = m.min(n);
        let low = same_run(most, |k| work.nth(k) == t.nth(k));
        let high = same_run(most - low, |k| work.nth(n - 1 - k) == t.nth(m - 1 - k));
        Shared {
            low,
            old: m - high,
            end: m,
            new: n - high,
        }
    }

    // The number that tile g of the one table has in the other, if they share it.
    pub fn moved(self, g: u16) -> Option<u16>
        ensures { Moved self g result }
    {
        let i = usize::from(g);
        if i < self.low {
            return Some(g);
        }
        if self.old <= i && i < self.end {
            return Some((self.new + (i - self.old)) as u16);
        }
        None
    }
}

// How many of the first `most` pairs of tiles are the same, up to the first that is not.
fn same_run<F: Fn(usize) -> bool>(most: usize, same: F) -> usize
    requires { (k : ℕ) → k < most → F.pre same k }
    ensures { (result ≤ most) × ((k : ℕ) → k < result → F.post same k true) }
{
    for k in 0..most {
        if !same(k) {
            return k;
        }
    }
    most
}

ghost use Rattle.std.specs.Prelude.{◌≡◌, ◌+◌, ◌<◌, ◌≤◌, ◌↔◌, IsTrue, if◌then◌else◌, min, codes};

use std::fmt::Display;
use std::io;

// What was tried so far, how much of it came out as it should, and where that is told.
#[derive(Drop)]
pub struct Tally<'a> {
    rt: &'a HostRuntime,
    tried: u64,
    right: u64,
    ghost within: { right ≤ tried },
}

impl<'a> Tally<'a> {
    pub fn new(rt: &'a HostRuntime) -> Tally<'a>
        ensures tried { result.tried ≡ 0 }
        ensures right { result.right ≡ 0 }
    {
        Tally {
            rt,
            tried: 0,
            right: 0,
        }
    }

    pub fn rt(&self) -> &'a HostRuntime
        ensures { result ≡ self.now.rt }
    {
        self.rt
    }

    // Counts one trial, and answers the word that closes its line.
    pub(crate) fn count(&mut self, right: bool) -> &'static str
        ensures tried { self.new.tried ≡ min (self.old.tried + 1) u64.MAX }
        ensures right { self.new.right ≡ (if right then min (self.old.right + 1) u64.MAX else self.old.right) }
        ensures word { result.now ≡ (if right then codes "right" else codes "WRONG") }
    {
        self.tried = self.tried.saturating_add(1);
        if right {
            self.right = self.right.saturating_add(1);
            "right"
        } else {
            "WRONG"
        }
    }

    // Counts one trial, and tells it on a line of its own.
    pub fn tell(&mut self, what: impl Display + Drop, right: bool) -> io::Result<()>
        ensures tried { self.new.tried ≡ min (self.old.tried + 1) u64.MAX }
        ensures right { self.new.right ≡ (if right then min (self.old.right + 1) u64.MAX else self.old.right) }
    {
        let word = self.count(right);
        println!(self.rt; "{what}, {word}")
    }

    // Whether something was tried and all of it came out right.
    pub fn all_right(&self) -> bool
        ensures { IsTrue result ↔ (0 < self.now.tried × self.now.tried ≡ self.now.right) }
    {
        self.tried > 0 && self.tried == self.right
    }

    // Tells how much was tried and how much came out right.
    pub fn close(&self) -> io::Result<()> {
        let tried = self.tried;
        let right = self.right;
        println!(self.rt; "{tried} tried, {right} right")
    }
}

ghost use Rattle.std.specs.Prelude.{◌≡◌, ◌==◌, [], drop};
ghost use Rattle.std.specs.Iterator.{YieldsFirstRef, item_count};
ghost use Rattle.std.specs.List.{count_by, position};
ghost use Rattle.lists.specs.Split.{split};
ghost use Rattle.lists.specs.Cursor.{left};

// What is left of a text that is handed out part by part, each up to the next mark. The type of std's `split` names a closure, so
// that no field could hold it.
#[derive(Clone, Copy)]
pub(crate) struct Parts<'a, const MARK: u8> {
    rest: Option<&'a [u8]>,
}

fn mark_in(bytes: &[u8], mark: u8) -> Option<usize>
    ensures { result ≡ position (λ b. b == mark) bytes.now }
{
    bytes.iter().position(|b| *b == mark)
}

// `filter` and `count` in place of the loop made a read up to a third slower.
pub(crate) fn count_marks(bytes: &[u8], mark: u8) -> usize
    ensures { result ≡ count_by (λ b. b == mark) bytes.now }
{
    let mut n = 0;
    for b in bytes {
        if *b == mark {
            n += 1;
        }
    }
    n
}

impl<'a, const MARK: u8> Parts<'a, MARK> {
    pub(crate) fn new(text: &'a [u8]) -> Parts<'a, MARK>
        ensures { left MARK result.rest ≡ split MARK text.now }
    {
        Parts { rest: Some(text) }
    }

    pub(crate) fn none() -> Parts<'a, MARK>
        ensures { left MARK result.rest ≡ [] }
    {
        Parts { rest: None }
    }
}

impl<'a, const MARK: u8> Iterator for Parts<'a, MARK> {
    type Item = &'a [u8];

    ghost next_gives = { YieldsFirstRef (λ s. left MARK s.rest) };

    ghost remaining = { item_count (λ s. left MARK s.rest) };

    fn next(&mut self) -> Option<&'a [u8]> {
        let rest = self.rest?;
        match mark_in(rest, MARK) {
            Some(at) => {
                self.rest = Some(&rest[at + 1..]);
                Some(&rest[..at])
            }
            None => {
                self.rest = None;
                Some(rest)
            }
        }
    }
}

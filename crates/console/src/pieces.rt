// The fields of a line: what stands between the spaces outside quotes.
ghost use Rattle.std.specs.Prelude.{◌≡◌, ◌+◌, ◌<◌, [], ◌∷◌, take, drop, length, MatchOption};
ghost use Rattle.console.specs.Fields.{ends as ends_at, past as past_byte, fields_from, fields_in};
ghost use Rattle.console.specs.declared.pieces.Standing.TheVariants.{Outside};

/// Where a byte stands in a line.
#[derive(Clone, Copy, PartialEq, Eq, Debug)]
pub enum Standing {
    Outside,
    Quoted,
    Escaped,
}

impl Standing {
    /// Whether a byte ends a field.
    fn ends(self, byte: u8) -> bool
        ensures { result ≡ ends_at self byte }
    {
        match self {
            Standing::Outside => byte == b' ',
            Standing::Quoted | Standing::Escaped => false,
        }
    }

    /// The standing behind one byte more.
    fn past(self, byte: u8) -> Standing
        ensures { result ≡ past_byte self byte }
    {
        match (self, byte) {
            (Standing::Outside, b'"') => Standing::Quoted,
            (Standing::Quoted, b'"') => Standing::Outside,
            (Standing::Quoted, b'\\') => Standing::Escaped,
            (Standing::Escaped, _) => Standing::Quoted,
            _ => self,
        }
    }
}

/// Where the first field of a line ends, if another one follows.
fn end_of(line: &[u8]) -> Option<usize>
    ensures { MatchOption result (fields_from Outside line.now ≡ line.now ∷ []) (λ i. (i < length line.now) × (fields_from Outside line.now ≡ take i line.now ∷ fields_from Outside (drop (i + 1) line.now))) }
{
    let mut standing = Standing::Outside;
    for (i, byte) in line.iter().enumerate() {
        if standing.ends(*byte) {
            return Some(i);
        }
        standing = standing.past(*byte);
    }
    None
}

/// The fields of a line, cut one by one; one is there even where nothing stands behind the last space.
#[derive(Clone, Copy)]
pub struct Fields<'a> {
    rest: Option<&'a [u8]>,
}

impl<'a> Fields<'a> {
    pub fn of(line: &'a [u8]) -> Fields<'a>
        ensures { fields_in result ≡ fields_from Outside line.now }
    {
        Fields { rest: Some(line) }
    }
}

impl<'a> Iterator for Fields<'a> {
    ghost use Rattle.std.specs.Prelude.{List, ℕ};
    ghost use Rattle.std.specs.Borrow.{Bor};
    ghost use Rattle.std.specs.Iterator.{YieldsFirstRef, item_count};

    type Item = &'a [u8];

    ghost next_gives = { YieldsFirstRef fields_in };

    ghost remaining = { item_count fields_in };

    fn next(&mut self) -> Option<&'a [u8]> {
        let line = self.rest?;
        match end_of(line) {
            Some(i) => {
                self.rest = Some(&line[i + 1..]);
                Some(&line[..i])
            }
            None => {
                self.rest = None;
                Some(line)
            }
        }
    }
}

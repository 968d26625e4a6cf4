// The words of a line: what stands between blanks, up to a word that starts with '#'.
ghost use Rattle.std.specs.Prelude.{length};
ghost use Rattle.std.specs.Iterator.{at_most};

// What of a line is still to read.
#[derive(Clone, Copy)]
pub(crate) struct Words<'a> {
    rest: &'a [u8],
}

fn is_blank(b: u8) -> bool {
    b <= b' '
}

// Whether the answer stands behind a word.
pub(crate) fn is_equals(word: &[u8]) -> bool {
    word.starts_with(b"=")
}

impl<'a> Words<'a> {
    pub(crate) fn of(line: &'a [u8]) -> Words<'a> {
        Words { rest: line }
    }

    // The words behind the next '=', none where there is no more.
    pub(crate) fn behind_equals(mut self) -> Option<Words<'a>> {
        self.find(|word| is_equals(word))?;
        Some(self)
    }
}

impl<'a> Iterator for Words<'a> {
    type Item = &'a [u8];

    ghost remaining = { λ s. at_most (length s.rest.now) };

    fn next(&mut self) -> Option<&'a [u8]> {
        let from = self.rest.iter().position(|b| !is_blank(*b))?;
        let word = &self.rest[from..];
        let (first, others) = word.split_first()?;
        if *first == b'#' {
            return None;
        }
        let to = others
            .iter()
            .position(|b| is_blank(*b))
            .unwrap_or(others.len());
        self.rest = &others[to..];
        Some(&word[..to + 1])
    }
}

// The words of a line: what stands between blanks, up to a comment.
ghost use Rattle.std.specs.Prelude.{◌≡◌, not, position};
ghost use Rattle.quote.specs.Words.{is_blank, is_end, lent_word, next_word};

// What is left of a line.
#[derive(Drop)]
pub(crate) struct Words<'a> {
    pub(crate) rest: &'a [u8],
}

impl<'a> Words<'a> {
    // The next word. Rules out a word of a comment, and a blank within a word.
    #[tactic(auto, unfolding(crate::specs::Words::next_word))]
    pub(crate) fn next_word(&mut self) -> Option<&'a [u8]>
        ensures { lent_word result self.new.rest.now ≡ next_word self.old.rest.now }
    {
        let line = self.rest;
        let from = word_start(line)?;
        let rest = &line[from..];
        let n = word_end(rest).unwrap_or(rest.len());
        if n == 0 {
            return None;
        }
        let (word, rest) = rest.split_at(n);
        self.rest = rest;
        Some(word)
    }
}

#[tactic(auto, unfolding(crate::specs::Words::is_blank))]
fn is_blank(b: u8) -> bool
    ensures { result ≡ is_blank b }
{
    matches!(b, b' ' | b'\t' | b'\r')
}

// Whether no word goes on here.
#[tactic(auto, unfolding(crate::specs::Words::is_end))]
fn is_end(b: u8) -> bool
    ensures { result ≡ is_end b }
{
    is_blank(b) || b == b'#'
}

// Where the first byte stands that is no blank.
fn word_start(line: &[u8]) -> Option<usize>
    ensures { result ≡ position (λ b. not (is_blank b)) line.now }
{
    line.iter().position(|b| !is_blank(*b))
}

// Where the first byte stands at which no word goes on.
// Kept: this and word_start are one call each; one function over the test would be `position` under another name.
fn word_end(line: &[u8]) -> Option<usize>
    ensures { result ≡ position is_end line.now }
{
    line.iter().position(|b| is_end(*b))
}

// The order of a text's parts. A part is named by where it starts: it ends at the last of so many bytes `mark` from there, or at the text's end.
// Bigrams are parts of a processed text, common prefixes parts of a list of lines. Assumes nothing of the starts: one past the end is an empty part.
#![tactic(auto)]

ghost use Rattle.std.specs.Prelude.{◌≡◌, ◌+◌, length, drop};
ghost use Rattle.sort_spread.specs.Sort.{ends_part, marks_left, part_of, part_later};

// What ends a part: the byte `mark`, where as many as `times` of them are to come.
#[derive(Clone, Copy)]
pub struct Cut {
    pub mark: u8,
    pub times: usize,
}

// A bigram ends at the second space.
pub const BIGRAM: Cut = Cut { mark: 32, times: 2 };

// A line ends at the first newline.
pub const LINE: Cut = Cut { mark: 10, times: 1 };

impl Cut {
    // Whether x ends a part.
    pub fn ends_at(self, x: u8) -> bool
        ensures { result ≡ ends_part self.mark self.times x }
    {
        x == self.mark && self.times < 2
    }

    // What ends the part past x: one mark less where x is one.
    pub fn past(self, x: u8) -> Cut
        ensures { result ≡ record { mark = self.mark; times = marks_left self.mark self.times x } }
    {
        if x == self.mark {
            return Cut {
                mark: self.mark,
                times: self.times.saturating_sub(1),
            };
        }
        self
    }

    // Whether the part that starts at a comes after the one that starts at b. Most bytes are alike and end nothing: two tests a byte.
    pub fn part_after(self, text: &[u8], a: usize, b: usize) -> bool
        ensures { result ≡ part_later self.mark self.times text.now a b }
    {
        let both = text.len().saturating_sub(a.max(b));
        let mut cut = self;
        for i in 0..both {
            let x = text[a + i];
            let y = text[b + i];
            if y != x {
                return !cut.ends_at(x) && (cut.ends_at(y) || y < x);
            }
            if x == cut.mark {
                if cut.ends_at(x) {
                    return false;
                }
                cut = cut.past(x);
            }
        }
        a + both < text.len() && !cut.ends_at(text[a + both])
    }

    // Where the part that starts at a ends.
    pub fn part_end(self, text: &[u8], a: usize) -> usize
        ensures { result ≡ a + length (part_of self.mark self.times (drop a text.now)) }
    {
        let mut cut = self;
        for i in a..text.len() {
            let x = text[i];
            if cut.ends_at(x) {
                return i;
            }
            cut = cut.past(x);
        }
        a.max(text.len())
    }
}

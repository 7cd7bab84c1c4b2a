ghost use Rattle.std.specs.Prelude.{◌≤◌};
ghost use Rattle.paper.specs.Numbers.{most_tasks, most_words};

use crate::edition::Edition;
use crate::places;

/// What a file's length follows from: its edition, n and m.
#[derive(Clone, Copy, Debug, PartialEq, Eq)]
pub struct Shape {
    pub edition: Edition,
    pub tasks: usize,
    pub words: usize,
    pub ghost few_tasks: { tasks ≤ most_tasks },
    pub ghost few_words: { words ≤ most_words },
}

impl Shape {
    ghost use Rattle.std.specs.Prelude.{◌≡◌, ◌≤◌, ◌<◌, ◌^◌};
    ghost use Rattle.paper.specs.Numbers.{most_words};
    ghost use Rattle.paper.specs.File.{word_at};
    ghost use Rattle.layout.specs.Editions.{edition_number};
    ghost use Rattle.layout.specs.Shapes.{length_of};

    // The bit that region word k, counted from 0, begins at behind the records.
    pub fn word_at(self, k: usize) -> usize
        requires { k ≤ most_words }
        ensures value { result ≡ word_at (edition_number self.edition) self.tasks k }
        ensures upper_bound { result < 2 ^ 17 }
    {
        places::word_at(u8::from(self.edition), self.tasks, k)
    }

    // The length that the edition, n and m give.
    pub fn file_length(self) -> usize
        ensures { result ≡ length_of self }
    {
        places::file_length(u8::from(self.edition), self.tasks, self.words)
    }
}

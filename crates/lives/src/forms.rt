// Forms: a text in which a # stands for each number.
use pages::page::{say, say_number};

const MARK: u8 = b'#';

// The form with its numbers, held against what should come out from `at` on. Behind the last number come zeros, and numbers without a mark are not said.
pub(crate) fn say_form(should: &[u8], at: usize, form: &[u8], numbers: &[u64]) -> usize {
    let mut to = at;
    for (marks, piece) in form.split(|byte| *byte == MARK).enumerate() {
        if 0 < marks {
            to = say_number(should, to, numbers.get(marks - 1).copied().unwrap_or(0));
        }
        to = say(should, to, piece);
    }
    to
}

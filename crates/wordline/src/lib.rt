// A line of plain words with numbers in it, put to the start of a lent buffer.
// What it is stands in specs/Words.antt, and what is answered in specs/Lined.antt.
#![tactic(auto)]

ghost use Rattle.std.specs.Prelude.{◌≡◌, ◌+◌, ◌*◌, ◌≤◌, length};
ghost use Rattle.digits.specs.Stored.{stored};
ghost use Rattle.wordline.specs.Words.{signs, said};
ghost use Rattle.wordline.specs.Lined.{longest_line, Lined};

use decimaltext::put_decimal;
use refusals::{Refusal, Written};
use store::store;

// No line is longer.
pub const LONGEST: usize = 204;

// Each `#` of the words is the next of the numbers, in decimal. Answers how many bytes there are.
pub fn put_words(out: &mut [u8], words: &[u8], numbers: &[u64]) -> usize
    requires words_in_bounds { signs words.now ≤ length numbers.now }
    requires numbers_in_bounds { length (said words.now numbers.now) ≤ length out.old }
    ensures value { result ≡ length (said words.now numbers.now) }
    ensures out_after { out.new ≡ stored out.old 0 (said words.now numbers.now) }
{
    let mut at = 0;
    let mut next = 0;
    for byte in words {
        if *byte == b'#' {
            at = put_decimal(out, at, numbers[next]);
            next += 1;
        } else {
            out[at] = *byte;
            at += 1;
        }
    }
    at
}

// Words with numbers in them: stored at the buffer's start where they fit, else row 12 and nothing stored.
pub fn fit_words(words: &[u8], numbers: &[u64], out: &mut [u8]) -> Written
    requires words_in_bounds { signs words.now ≤ length numbers.now }
    requires words_len_bound { length words.now + 19 * signs words.now ≤ longest_line }
    ensures { Lined out.old (said words.now numbers.now) result out.new }
{
    let mut line = [0u8; LONGEST];
    let n = put_words(&mut line, words, numbers);
    if out.len() < n {
        return Err(Refusal::Room);
    }
    store(out, 0, &line[..n]);
    Ok(n)
}

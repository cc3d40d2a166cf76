// An answer as a line of text in a lent buffer, with the words of a buffer send.
ghost use Rattle.std.specs.Prelude.{◌≡◌, [], ◌∷◌, ◌++◌, ◌+◌, ◌*◌, ◌≤◌, ◌<◌, length};
ghost use Rattle.std.proofs.lemmas.List.Edits.{sets};
ghost use Rattle.script.specs.Line.{decimal};
ghost use Rattle.script2.specs.Line.{spaced, words_line};

use script::line::put_line;

// Puts a line, a reply's number and a value, at a place of the buffer and gives the place behind it.
pub(crate) fn put_plain(number: u64, value: u64, out: &mut [u8], at: usize) -> usize
    requires { at + 42 ≤ length out.old }
    ensures value { result ≡ at + length (words_line number value []) }
    ensures upper_bound { result ≤ at + 42 }
    ensures out_after { out.new ≡ sets out.old at (words_line number value []) }
{
    put_line(number, value, out, at)
}

// The same with words behind the value, where the newline stood first.
pub(crate) fn put_sent(number: u64, value: u64, words: &[u16], out: &mut [u8], at: usize) -> usize
    requires { at + 42 + 6 * length words.now ≤ length out.old }
    ensures value { result ≡ at + length (words_line number value words.now) }
    ensures upper_bound { result ≤ at + 42 + 6 * length words.now }
    ensures out_after { out.new ≡ sets out.old at (words_line number value words.now) }
{
    let end = put_plain(number, value, out, at);
    if words.is_empty() {
        return end;
    }
    put_words(words, out, end - 1)
}

// Puts a space and a number for each word, then a newline.
fn put_words(words: &[u16], out: &mut [u8], at: usize) -> usize
    requires { at + 1 + 6 * length words.now ≤ length out.old }
    ensures value { result ≡ at + length (spaced words.now ++ (10 ∷ [])) }
    ensures upper_bound { result ≤ at + 1 + 6 * length words.now }
    ensures out_after { out.new ≡ sets out.old at (spaced words.now ++ (10 ∷ [])) }
{
    let mut end = at;
    for word in words {
        out[end] = 32;
        end = put_word(*word, out, end + 1);
    }
    out[end] = 10;
    end + 1
}

// Puts a number of 16 bits; words have four digits at most.
fn put_word(n: u16, out: &mut [u8], at: usize) -> usize
    requires { at + 5 ≤ length out.old }
    ensures value { result ≡ at + length (decimal n) }
    ensures upper_bound { result ≤ at + 5 }
    ensures out_after { out.new ≡ sets out.old at (decimal n) }
{
    if n < 1000 {
        return put_small(n, out, at);
    }
    let end = put_small(n / 100, out, at);
    out[end] = (n / 10 % 10) as u8 + 48;
    out[end + 1] = (n % 10) as u8 + 48;
    end + 2
}

// Puts a number of up to three digits.
fn put_small(n: u16, out: &mut [u8], at: usize) -> usize
    requires n_bound { n < 1000 }
    requires at_in_bounds { at + 3 ≤ length out.old }
    ensures value { result ≡ at + length (decimal n) }
    ensures upper_bound { result ≤ at + 3 }
    ensures out_after { out.new ≡ sets out.old at (decimal n) }
{
    if n < 10 {
        out[at] = (n % 10) as u8 + 48;
        return at + 1;
    }
    if n < 100 {
        out[at] = (n / 10 % 10) as u8 + 48;
        out[at + 1] = (n % 10) as u8 + 48;
        return at + 2;
    }
    out[at] = (n / 100 % 10) as u8 + 48;
    out[at + 1] = (n / 10 % 10) as u8 + 48;
    out[at + 2] = (n % 10) as u8 + 48;
    at + 3
}

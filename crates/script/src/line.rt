// An answer as a line of text in a lent buffer.
ghost use Rattle.std.specs.Prelude.{◌≡◌, ◌+◌, ◌≤◌, length};
ghost use Rattle.std.proofs.lemmas.List.Edits.{sets};
ghost use Rattle.io.specs.Digits.{last_digits};
ghost use Rattle.script.specs.Line.{decimal, line_buffer, line_end, width_of};

// Puts a line at a place of the buffer and gives the place behind it; where 42 places are not left there, nothing happens.
pub fn put_line(number: u64, value: u64, out: &mut [u8], at: usize) -> usize
    ensures value { result ≡ line_end number value (length out.old) at }
    ensures out_after { out.new ≡ line_buffer number value out.old at }
{
    if out.len() < 42 {
        return at;
    }
    if out.len() - 42 < at {
        return at;
    }
    let space = put_decimal(number, out, at);
    out[space] = 32;
    let end = put_decimal(value, out, space + 1);
    out[end] = 10;
    end + 1
}

// Puts a number in decimal at a place of the buffer and gives the place behind it. Replies and most values have up to three digits, which
// are put without a loop for speed.
fn put_decimal(n: u64, out: &mut [u8], at: usize) -> usize
    requires { at + 20 ≤ length out.old }
    ensures value { result ≡ at + length (decimal n) }
    ensures out_after { out.new ≡ sets out.old at (decimal n) }
{
    if n < 10 {
        out[at] = (n % 10) as u8 + 48;
        return at + 1;
    }
    if n < 100 {
        out[at] = (n / 10 % 10) as u8 + 48;
        out[at + 1] = (n % 10) as u8 + 48;
        return at + 2;
    }
    if n < 1000 {
        out[at] = (n / 100 % 10) as u8 + 48;
        out[at + 1] = (n / 10 % 10) as u8 + 48;
        out[at + 2] = (n % 10) as u8 + 48;
        return at + 3;
    }
    let size = width(n);
    put_digits(n, out, at, size);
    at + size
}

// How many digits a number has. A `while`, since it ends by what is left of the number and counts beside.
fn width(n: u64) -> usize
    ensures value { result ≡ width_of 19 n }
    ensures upper_bound { result ≤ 20 }
{
    let mut rest = n;
    let mut size = 1;
    while 10 <= rest {
        rest /= 10;
        size += 1;
    }
    size
}

// Puts the last `size` digits of a number at a place of the buffer, the last one first.
fn put_digits(n: u64, out: &mut [u8], at: usize, size: usize)
    requires { at + size ≤ length out.old }
    ensures { out.new ≡ sets out.old at (last_digits 10 size n) }
{
    let mut rest = n;
    for place in (0..size).rev() {
        out[at + place] = (rest % 10) as u8 + 48;
        rest /= 10;
    }
}

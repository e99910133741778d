// Text put into a line: each function stores its text from a place on, and answers the place behind it.
#![tactic(auto)]

ghost use Rattle.std.specs.Prelude.{◌≡◌, [], ◌∷◌, ◌+◌, ◌*◌, ◌<◌, ◌≤◌, length};
ghost use Rattle.text.specs.Text.{glyph, decimal, hex_byte, hex, spaced, each, Put};

// One byte.
pub fn put_byte(line: &mut [u8], at: usize, b: u8) -> usize
    requires { at + 1 ≤ length line.old }
    ensures { Put line.old at (b ∷ []) line.new result }
{
    line[at] = b;
    at + 1
}

// Bytes as they are.
pub fn put_word(line: &mut [u8], at: usize, word: &[u8]) -> usize
    requires { at + length word.now ≤ length line.old }
    ensures { Put line.old at word.now line.new result }
{
    let mut end = at;
    let mut i = 0;
    while i < word.len() {
        end = put_byte(line, end, word[i]);
        i += 1;
    }
    end
}

// The digit that stands for a number below 16.
fn digit(d: usize) -> u8
    requires { d < 16 }
    ensures { result ≡ glyph d }
{
    if d < 10 {
        return 48 + d as u8;
    }
    87 + d as u8
}

// Two lower-case hex digits.
pub fn put_hex_byte(line: &mut [u8], at: usize, b: u8) -> usize
    requires { at + 2 ≤ length line.old }
    ensures { Put line.old at (hex_byte b) line.new result }
{
    let high = digit(base::wide(b) / 16);
    let low = digit(base::wide(b) % 16);
    let middle = put_byte(line, at, high);
    put_byte(line, middle, low)
}

// Bytes in hex, nothing between them.
pub fn put_hex(line: &mut [u8], at: usize, bytes: &[u8]) -> usize
    requires { at + 2 * length bytes.now ≤ length line.old }
    ensures put { Put line.old at (hex bytes.now) line.new result }
    ensures value { result ≡ at + 2 * length bytes.now }
{
    let mut end = at;
    let mut i = 0;
    while i < bytes.len() {
        end = put_hex_byte(line, end, bytes[i]);
        i += 1;
    }
    end
}

// A number's decimal digits, where the line has room for them: those of a tenth of it, then the last.
fn put_digits(line: &mut [u8], at: usize, n: usize) -> usize
    requires { at + length (decimal n) ≤ length line.old }
    ensures { Put line.old at (decimal n) line.new result }
{
    if n < 10 {
        let only = digit(n);
        return put_byte(line, at, only);
    }
    let last = digit(n % 10);
    let end = put_digits(line, at, n / 10);
    put_byte(line, end, last)
}

// A number in decimal, which takes no more than 20 bytes.
pub fn put_decimal(line: &mut [u8], at: usize, n: usize) -> usize
    requires { at + 20 ≤ length line.old }
    ensures put { Put line.old at (decimal n) line.new result }
    ensures upper_bound { result ≤ at + 20 }
{
    put_digits(line, at, n)
}

// A space and a number.
pub fn put_number(line: &mut [u8], at: usize, n: usize) -> usize
    requires { at + 21 ≤ length line.old }
    ensures put { Put line.old at (spaced n) line.new result }
    ensures upper_bound { result ≤ at + 21 }
{
    let end = put_byte(line, at, 32);
    put_decimal(line, end, n)
}

// Three numbers, with a space before each.
pub fn put_three(line: &mut [u8], at: usize, n: usize, m: usize, k: usize) -> usize
    requires { at + 63 ≤ length line.old }
    ensures put { Put line.old at (each spaced (n ∷ m ∷ k ∷ [])) line.new result }
    ensures upper_bound { result ≤ at + 63 }
{
    let first = put_number(line, at, n);
    let second = put_number(line, first, m);
    put_number(line, second, k)
}

// Bytes in decimal, with a space before each.
pub fn put_numbers(line: &mut [u8], at: usize, bytes: &[u8]) -> usize
    requires { at + 4 * length bytes.now + 21 ≤ length line.old }
    ensures put { Put line.old at (each spaced bytes.now) line.new result }
    ensures upper_bound { result ≤ at + 4 * length bytes.now }
{
    let mut end = at;
    let mut i = 0;
    while i < bytes.len() {
        end = put_number(line, end, base::wide(bytes[i]));
        i += 1;
    }
    end
}

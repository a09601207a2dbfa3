// The check of a line (R5.10).
ghost use Rattle.std.specs.Prelude.{◌≡◌, ◌≤◌, ◌<◌, length};
ghost use Rattle.typed.specs.Typed.{weighed, check_of, check_letters, right};

// Each character's place, from 1 on, times its value, added up.
fn weigh(contents: &[u8]) -> u32
    requires { length contents.now ≤ 40 }
    ensures { (result ≡ weighed 1 contents.now) × (result ≤ 51200) }
{
    let mut sum: u32 = 0;
    for (i, c) in contents.iter().enumerate() {
        sum += (i as u32 + 1) * u32::from(text::zbase32_value(*c));
    }
    sum
}

fn of(number: u8, contents: &[u8]) -> u32
    requires { length contents.now ≤ 40 }
    ensures { (result ≡ check_of number contents.now) × (result < 1021) }
{
    (weigh(contents) + 41 * u32::from(number)) % 1021
}

// The check of a line's data, as its two characters.
pub(super) fn letters(number: u8, contents: &[u8]) -> [u8; 2]
    requires { length contents.now ≤ 40 }
    ensures { result ≡ check_letters number contents.now }
{
    let sum = of(number, contents);
    let quotient = text::zbase32_letter((sum / 32) as u8);
    let remainder = text::zbase32_letter((sum % 32) as u8);
    [quotient, remainder]
}

// Whether the last two characters of the line are the check of the others.
pub(super) fn right(number: u8, line: &[u8]) -> bool
    requires { (2 ≤ length line.now) × (length line.now ≤ 42) }
    ensures { result ≡ right number line.now }
{
    let end = line.len() - 2;
    let check = letters(number, &line[..end]);
    line[end] == check[0] && line[end + 1] == check[1]
}

// A word read as a number of 32 bits: digits, or a minus sign and digits, as a temperature below zero
// has them.
ghost use Rattle.std.specs.Prelude.{◌≡◌, ◌+◌, ◌≤◌, length, IfSome};
ghost use Rattle.text.specs.Leading.{LeadingDigits, is_number};
ghost use Rattle.text.specs.Laws.Leading.{NumberIn};
ghost use Rattle.text.specs.Number.{read_digits, read_number};

// The largest number without a sign, and the largest after a minus sign.
pub const LARGEST: u32 = u32::MAX;

pub const LARGEST_NEGATED: u32 = 2147483648;

// Digits with a value of at most `limit`. The value only grows, so the first digit that takes it
// past the limit decides.
fn read_digits(w: &[u8], limit: u32) -> Option<u32>
    ensures { result ≡ read_digits limit w.now }
{
    if w.is_empty() {
        return None;
    }
    let mut value: u32 = 0;
    for b in w {
        if !b.is_ascii_digit() {
            return None;
        }
        value = value.checked_mul(10)?.checked_add(u32::from(*b - b'0'))?;
        if limit < value {
            return None;
        }
    }
    Some(value)
}

// Digits; or a minus sign and digits, which stand for the two's complement.
pub fn read_number(w: &[u8]) -> Option<u32>
    ensures { result ≡ read_number w.now }
{
    match w.strip_prefix(b"-") {
        Some(digits) => Some(read_digits(digits, LARGEST_NEGATED)?.wrapping_neg()),
        None => read_digits(w, LARGEST),
    }
}

// Where digits end, and their value. Leading, Number, Word and Line stay types of their own: their
// fields' names say what is at the place, and no function is for all of them.
#[derive(Clone, Copy)]
pub struct Leading {
    pub to: usize,
    pub value: u64,
}

// The digits from `from` on, at most ten, as many as a number of 32 bits has: these fit 64 bits, so
// that no limit is tried on the way, and the compiler writes the loop out. By index, since where the
// digits end is one.
pub fn leading_digits(s: &[u8], from: usize) -> Leading
    requires { from + 10 ≤ length s.now }
    ensures { LeadingDigits s.now from result.to result.value }
{
    let mut value: u64 = 0;
    for i in 0..10 {
        let b = s[from + i];
        if !b.is_ascii_digit() {
            return Leading {
                to: from + i,
                value,
            };
        }
        value = value * 10 + u64::from(b - b'0');
    }
    Leading {
        to: from + 10,
        value,
    }
}

// Whether digits from `from` to `to` are a number of at most `limit`.
pub fn is_number(from: usize, to: usize, value: u64, limit: u32) -> bool
    ensures { result ≡ is_number from to value limit }
{
    (from < to) & (value <= u64::from(limit))
}

// A number that stands in a line, and where its digits end.
#[derive(Clone, Copy)]
pub struct Number {
    pub to: usize,
    pub value: u32,
}

// The number of at most `limit` that the first ten bytes from `from` on begin with, if it ends
// among them.
pub fn number_in(s: &[u8], from: usize, limit: u32) -> Option<Number>
    requires { from + 10 ≤ length s.now }
    ensures { IfSome result (λ n. NumberIn s.now from n.to n.value limit) }
{
    let Leading { to, value } = leading_digits(s, from);
    if !is_number(from, to, value, limit) {
        return None;
    }
    Some(Number {
        to,
        // as: the limit is a word
        value: value as u32,
    })
}

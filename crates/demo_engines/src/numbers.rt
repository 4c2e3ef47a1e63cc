//! Labels, and numbers as they are printed, at the front of a text.

ghost use Rattle.std.specs.Prelude.{◌≡◌, ◌≢◌, ◌↔◌, ◌≤◌, ◌<◌, ◌^◌, ◌++◌, ◌∷◌, ℕ, ℤ, pos, neg_ℤ, true, false, List, All, length, take, drop, slice_index, IfSome, IfNone, IsTrue};
ghost use Rattle.std.specs.Fmt.{decimal, signed_decimal};
ghost use Rattle.std.specs.Int.{w8};
ghost use Rattle.std.specs.Int.RustNames.{FitsSigned};
ghost use Rattle.demo_engines.specs.Parts.{Stops};
ghost use Rattle.le_rec.specs.Name.{hex_digit};
ghost use Rattle.line_io.specs.Numbers.{IsDigit, value_of};
ghost use Rattle.look_engines.specs.Listing.{hex_byte};

/// What follows a label.
pub fn take_label<'t>(text: &'t [u8], label: &[u8]) -> Option<&'t [u8]>
    ensures some { IfSome result (λ rest. text.now ≡ label.now ++ rest.now) }
    ensures none { IfNone result ((rest : List ℕ) → text.now ≢ label.now ++ rest) }
{
    if !text.starts_with(label) {
        return None;
    }
    let (_, rest) = text.split_at(label.len());
    Some(rest)
}

/// What follows a printed number of 64 bits and the end of its line.
pub fn behind_last_number(text: &[u8]) -> Option<&[u8]>
    ensures some { IfSome result (λ rest. (n : ℕ) × (n < 2 ^ 64) × (text.now ≡ decimal n ++ 10 ∷ rest.now)) }
    ensures none { IfNone result ((n : ℕ) (rest : List ℕ) → n < 2 ^ 64 → text.now ≢ decimal n ++ 10 ∷ rest) }
{
    let (digits, behind) = split_digits(text);
    let Some(_number) = natural(digits) else {
        return None;
    };
    match take_label(behind, b"\n") {
        Some(rest) => Some(rest),
        None => None,
    }
}

/// The number below 256 behind a label, and what follows it. Where none stands there it is any number.
pub fn guess_number(text: &[u8]) -> (u8, &[u8])
    ensures small { result.0 < 256 }
    ensures is { (label rest : List ℕ) (n : ℕ) → n < 256 → All (λ byte. ¬ IsDigit byte) label → Stops IsDigit rest
        → text.now ≡ label ++ (decimal n ++ rest) → (result.0 ≡ n) × (result.1.now ≡ rest) }
{
    let (digits, rest) = split_digits(skip_label(text));
    (small(digits), rest)
}

/// The number below 65536 at the front, and what follows it. Where none stands there it is any number.
pub fn guess_word(text: &[u8]) -> (u16, &[u8])
    ensures { (n : ℕ) (rest : List ℕ) → n < 65536 → Stops IsDigit rest → text.now ≡ decimal n ++ rest → (result.0 ≡ n) × (result.1.now ≡ rest) }
{
    let (digits, rest) = split_digits(text);
    (word(digits), rest)
}

/// The number of eight bits at the front, and what follows it. Where none stands there it is any number.
pub fn guess_signed(text: &[u8]) -> (i8, &[u8])
    ensures { (z : ℤ) (rest : List ℕ) → FitsSigned w8 z → Stops IsDigit rest → text.now ≡ signed_decimal z ++ rest
        → (result.0 ≡ z) × (result.1.now ≡ rest) }
{
    let is_negative = text.starts_with(b"-");
    let (magnitude, rest) = guess_number(text);
    (with_sign(is_negative, magnitude), rest)
}

/// The byte of two hexadecimal digits at the front. If there are none, it is any byte.
pub fn guess_hex(text: &[u8]) -> u8
    ensures { (byte : ℕ) (rest : List ℕ) → byte < 256 → text.now ≡ hex_byte byte ++ rest → result ≡ byte }
{
    match text {
        [high, low, ..] => hex_value(*high) * 16 + hex_value(*low),
        _ => 0,
    }
}

/// What follows the first byte.
pub fn behind_first(text: &[u8]) -> &[u8]
    ensures { (byte : ℕ) (rest : List ℕ) → text.now ≡ byte ∷ rest → result.now ≡ rest }
{
    match text.split_first() {
        Some((_, rest)) => rest,
        None => text,
    }
}

// The digits at the front, and what follows them.
fn split_digits(text: &[u8]) -> (&[u8], &[u8])
    ensures both { text.now ≡ result.0.now ++ result.1.now }
    ensures digits { All IsDigit result.0.now }
    ensures stops { Stops IsDigit result.1.now }
{
    text.split_at(count_digits(text))
}

// How many digits stand at the front.
fn count_digits(text: &[u8]) -> usize
    ensures within { result ≤ length text.now }
    ensures digits { All IsDigit (take result text.now) }
    ensures stops { Stops IsDigit (drop result text.now) }
{
    for i in 0..text.len() {
        if !is_digit(text[i]) {
            return i;
        }
    }
    text.len()
}

// The text from its first digit on.
fn skip_label(text: &[u8]) -> &[u8]
    ensures { (label more : List ℕ) → All (λ byte. ¬ IsDigit byte) label → Stops (λ byte. ¬ IsDigit byte) more → text.now ≡ label ++ more → result.now ≡ more }
{
    let (_, rest) = text.split_at(count_others(text));
    rest
}

// How many bytes that are no digits stand at the front.
fn count_others(text: &[u8]) -> usize
    ensures within { result ≤ length text.now }
    ensures others { All (λ byte. ¬ IsDigit byte) (take result text.now) }
    ensures stops { Stops (λ byte. ¬ IsDigit byte) (drop result text.now) }
{
    for i in 0..text.len() {
        if is_digit(text[i]) {
            return i;
        }
    }
    text.len()
}

fn is_digit(byte: u8) -> bool
    ensures { IsTrue result ↔ IsDigit byte }
{
    48 <= byte && byte <= 57
}

// The number below 256 with these digits.
fn small(digits: &[u8]) -> u8
    requires { All IsDigit digits.now }
    ensures small { result < 256 }
    ensures is { (n : ℕ) → n < 256 → digits.now ≡ decimal n → result ≡ n }
{
    let Some(number) = natural(digits) else {
        return 0;
    };
    if number < 256 { number as u8 } else { 0 }
}

// The number below 65536 with these digits.
fn word(digits: &[u8]) -> u16
    requires { All IsDigit digits.now }
    ensures { (n : ℕ) → n < 65536 → digits.now ≡ decimal n → result ≡ n }
{
    let Some(number) = natural(digits) else {
        return 0;
    };
    if number < 65536 { number as u16 } else { 0 }
}

// The number of this sign and magnitude.
fn with_sign(is_negative: bool, magnitude: u8) -> i8
    ensures positive { is_negative ≡ false → magnitude < 128 → result ≡ pos magnitude }
    ensures negative { is_negative ≡ true → magnitude ≤ 128 → result ≡ neg_ℤ (pos magnitude) }
{
    if is_negative {
        if magnitude > 128 {
            return 0;
        }
        return -i16::from(magnitude) as i8;
    }
    if magnitude > 127 {
        return 0;
    }
    magnitude as i8
}

// The value of a hexadecimal digit.
fn hex_value(digit: u8) -> u8
    ensures few { result < 16 }
    ensures back { (d : ℕ) → d < 16 → digit ≡ hex_digit d → result ≡ d }
{
    match digit {
        b'0'..=b'9' => digit - b'0',
        b'a'..=b'f' => digit - b'a' + 10,
        _ => 0,
    }
}

// The number that is printed with these digits, if it has 64 bits.
fn natural(digits: &[u8]) -> Option<u64>
    requires { All IsDigit digits.now }
    ensures some { IfSome result (λ n. digits.now ≡ decimal n) }
    ensures none { IfNone result ((n : ℕ) → n < 2 ^ 64 → digits.now ≢ decimal n) }
{
    if !is_canonical(digits) {
        return None;
    }
    match value(digits) {
        Some(number) => Some(number),
        None => None,
    }
}

// Whether there are digits, without a leading zero.
fn is_canonical(digits: &[u8]) -> bool
    ensures { IsTrue result ↔ ((0 < length digits.now) × (slice_index digits.now 0 ≡ 48 → length digits.now ≡ 1)) }
{
    if digits.is_empty() {
        return false;
    }
    digits.len() == 1 || digits[0] != b'0'
}

// The value of these digits, if it has 64 bits.
fn value(digits: &[u8]) -> Option<u64>
    requires { All IsDigit digits.now }
    ensures some { IfSome result (λ n. n ≡ value_of digits.now) }
    ensures none { IfNone result (2 ^ 64 ≤ value_of digits.now) }
{
    let mut number: u64 = 0;
    for i in 0..digits.len() {
        let Some(tens) = number.checked_mul(10) else {
            return None;
        };
        let Some(more) = tens.checked_add(u64::from(digits[i] - 48)) else {
            return None;
        };
        number = more;
    }
    Some(number)
}

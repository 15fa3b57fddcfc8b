//! The tokens of a text, taken from its front: whitespace, comments and numbers. A number above
//! 65535 is read as 65535.
ghost use Rattle.std.specs.Prelude.{◌≡◌, ◌∷◌, IfSome, IfNone, None, Some, false, true, min, length};
ghost use Rattle.std.specs.Prelude.{◌+◌, ◌*◌, ◌-◌, ◌%◌, nat_lt, if◌then◌else◌, ℕ, List};
ghost use Rattle.std.specs.Char.{is_ascii_digit};
ghost use Rattle.pgm_images.specs.Marks.{ends_line, is_space, begins_gap, past_blanks};
ghost use Rattle.pgm_images.specs.Marks.{digits_after, take_number, take_next, ends, TakesNumber};
ghost use Rattle.pgm_images.specs.Marks.{FindsNumber};

/// Returns whether a byte is CR or LF.
fn ends_line(byte: u8) -> bool
    ensures { result ≡ ends_line byte }
{
    byte == b'\r' || byte == b'\n'
}

/// Returns whether a byte is a space, TAB, CR or LF.
pub fn is_space(byte: u8) -> bool
    ensures { result ≡ is_space byte }
{
    byte == b' ' || byte == b'\t' || ends_line(byte)
}

/// Returns what follows all whitespace and comments at the front of the text. `None`: a comment
/// doesn't end.
fn past_blanks(text: &[u8]) -> Option<&[u8]>
    ensures some { IfSome result (λ rest. past_blanks false text.now ≡ Some rest.now) }
    ensures none { IfNone result (past_blanks false text.now ≡ None) }
{
    let mut rest = text;
    let mut within = false;
    while let Some((byte, others)) = rest.split_first() {
        if within {
            within = !ends_line(*byte);
        } else if *byte == b'#' {
            within = true;
        } else if !is_space(*byte) {
            return Some(rest);
        }
        rest = others;
    }
    if within { None } else { Some(rest) }
}

/// Returns the number that the digits at the front spell, and the text after them.
fn digits(text: &[u8]) -> (u16, &[u8])
    ensures { TakesNumber (Some (digits_after 0 text.now)) result.0 result.1.now }
{
    let mut rest = text;
    let mut number = 0u16;
    while let Some((byte, others)) = rest.split_first() {
        if !byte.is_ascii_digit() {
            break;
        }
        number = number
            .saturating_mul(10)
            .saturating_add(u16::from(*byte - b'0'));
        rest = others;
    }
    (number, rest)
}

/// Returns the number at the front, and the text after it. `None`: no digit is at the front.
fn take_number(text: &[u8]) -> Option<(u16, &[u8])>
    ensures some { IfSome result (λ taken. TakesNumber (take_number text.now) taken.0 taken.1.now) }
    ensures none { IfNone result (take_number text.now ≡ None) }
{
    match text.split_first() {
        Some((byte, _)) if byte.is_ascii_digit() => Some(digits(text)),
        _ => None,
    }
}

/// Returns whether the text begins with whitespace or a comment.
fn begins_gap(text: &[u8]) -> bool
    ensures { result ≡ begins_gap text.now }
{
    match text.split_first() {
        Some((byte, _)) => *byte == b'#' || is_space(*byte),
        None => false,
    }
}

/// Returns the value of a byte as a digit: below 10 exactly if the byte is a digit.
#[inline(always)]
fn digit(byte: u8) -> u8
    ensures below { nat_lt result 10 ≡ is_ascii_digit byte }
    ensures value { is_ascii_digit byte ≡ true → result ≡ byte - 48 }
{
    byte.wrapping_sub(b'0')
}

/// Appends a decimal digit to a number if `is_digit` is true, and returns the number modulo 256.
#[inline(always)]
fn with_digit(number: u8, digit: u8, is_digit: bool) -> u8
    ensures { result ≡ (if is_digit then number * 10 + digit else number) % 256 }
{
    let more = number.wrapping_mul(9).wrapping_add(digit);
    number.wrapping_add(u8::from(is_digit) * more)
}

/// Reads a whitespace byte and a number of one to three digits from five bytes. Returns three
/// values:
///
/// 1. the number, if value 2 isn't 0
/// 2. the length in bytes of the whitespace byte and the number; 0 if `blank` isn't whitespace, if
///    no digit follows it, or if value 3 is true
/// 3. whether a slower function must read the bytes: the number has more than three digits or is
///    above the maxval, or `blank` is neither whitespace nor a digit
///
/// The processor can't predict the number of digits, so nothing here branches on it.
#[inline(always)]
pub fn short_number(
    maxval: u8,
    blank: u8,
    first: u8,
    second: u8,
    third: u8,
    fourth: u8,
) -> (u8, u8, bool)
    ensures { result.2 ≡ false → (rest : List ℕ) →
        FindsNumber maxval result.0 result.1 (blank ∷ first ∷ second ∷ third ∷ fourth ∷ rest) }
{
    let (first, second) = (digit(first), digit(second));
    let (third, fourth) = (digit(third), digit(fourth));
    let two = second < 10;
    let three = two & (third < 10);
    let tens = with_digit(first, second, two);
    let number = with_digit(tens, third, three);
    let fits = !three | (tens < 25) | ((tens == 25) & (third < 6));
    let is_short = is_space(blank) & (first < 10) & !(three & (fourth < 10));
    let begins_number = is_short & fits & (number <= maxval);
    let is_blank = !(first < 10) & is_space(blank);
    let bytes = u8::from(begins_number) * (2 + u8::from(two) + u8::from(three));
    let is_other = !(begins_number | is_blank | (digit(blank) < 10));
    (number, bytes, is_other)
}

/// Returns the number that comes after a gap at the front, and the text after the number. A gap is
/// one or more whitespace bytes or comments. `None`: the text does not begin with a gap and a
/// number.
pub fn take_next(text: &[u8]) -> Option<(u16, &[u8])>
    ensures some { IfSome result (λ taken. TakesNumber (take_next text.now) taken.0 taken.1.now) }
    ensures none { IfNone result (take_next text.now ≡ None) }
{
    if begins_gap(text) {
        take_number(past_blanks(text)?)
    } else {
        None
    }
}

/// Returns whether the text is nothing but whitespace and comments.
pub fn ends(text: &[u8]) -> bool
    ensures { result ≡ ends text.now }
{
    match past_blanks(text) {
        Some(rest) => rest.is_empty(),
        None => false,
    }
}

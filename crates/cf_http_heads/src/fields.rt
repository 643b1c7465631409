//! What the fields of a head say of the body and of the connection.

ghost use Rattle.std.specs.Prelude.{◌≡◌, ◌<◌, ◌∷◌, [], map, take, slice_index, length, codes, true, Some, None, MatchOption, option_copied, if◌then◌else◌, nat_le};
ghost use Rattle.std.specs.List.{list_any, list_all};
ghost use Rattle.std.specs.Char.{is_ascii_digit};
ghost use Rattle.std.specs.Str.{str_eq_ignore_ascii_case};
ghost use Rattle.std.specs.Str.Parse.{digits_value};
ghost use Rattle.httparse.specs.Ascii.{comma};
ghost use Rattle.httparse.specs.Borrowed.{header_parts};
ghost use Rattle.httparse.specs.Grammar.{is_ows, skip_ows};
ghost use Rattle.cf_http_heads.specs.Fields.{values_of, is_number, stated_length, body_length, elements, is_close, says_close, first_value, HasNone};

use httparse::Header;

/// Why a head is refused, by RFC 9112 (its rules of `Host`, `Transfer-Encoding` and
/// `Content-Length`), but for two rules of our own: every transfer coding is refused, and a length
/// that is stated twice, be it the same.
#[derive(Clone, Copy)]
pub enum Refusal {
    /// It is no head, or one beyond the limits, or its host or its body's length isn't stated as it
    /// must be.
    Head,
    /// Its body has a transfer coding.
    Coding,
    /// Its body is too long.
    Long,
}

/// The most bytes of a body (own).
pub const LONGEST_BODY: u32 = 262_144;

/// Whether two names are one, without ASCII case.
fn is_named(name: &str, wanted: &str) -> bool
    ensures { result ≡ str_eq_ignore_ascii_case name.now wanted.now }
{
    name.eq_ignore_ascii_case(wanted)
}

/// How many fields have a name.
fn count_of(headers: &[Header<'_>], name: &str) -> usize
    ensures { result ≡ length (values_of name.now (map header_parts headers.now)) }
{
    let mut count = 0;
    for header in headers {
        if is_named(header.name, name) {
            count += 1;
        }
    }
    count
}

/// Whether a text is a number, in digits alone.
pub fn is_number_text(text: &[u8]) -> bool
    ensures { result ≡ is_number text.now }
{
    !text.is_empty() && are_digits(text)
}

fn are_digits(text: &[u8]) -> bool
    ensures { result ≡ list_all is_ascii_digit text.now }
{
    for byte in text {
        if !byte.is_ascii_digit() {
            return false;
        }
    }
    true
}

/// The number that digits write, unless it is above `most`.
pub fn number_within(digits: &[u8], most: u32) -> Option<u32>
    requires { list_all is_ascii_digit digits.now ≡ true }
    ensures { result ≡ if nat_le (digits_value 10 digits.now) most
        then Some (digits_value 10 digits.now) else None }
{
    let mut number: u64 = 0;
    for digit in digits {
        number = number * 10 + u64::from(*digit - b'0');
        if number > u64::from(most) {
            return None;
        }
    }
    Some(number as u32)
}

/// The first field of a name.
fn first_of<'b>(headers: &[Header<'b>], name: &str) -> Option<&'b [u8]>
    ensures { option_copied result
        ≡ first_value (values_of name.now (map header_parts headers.now)) }
{
    for header in headers {
        if is_named(header.name, name) {
            return Some(header.value);
        }
    }
    None
}

/// The length of the body, or the first rule that refuses the head.
pub fn length_of_body(minor: u8, headers: &[Header<'_>]) -> Result<u32, Refusal>
    ensures { result ≡ body_length minor (map header_parts headers.now) }
{
    if minor == 1 && count_of(headers, "host") != 1 {
        return Err(Refusal::Head);
    }
    if count_of(headers, "transfer-encoding") > 0 {
        return Err(Refusal::Coding);
    }
    stated(headers)
}

/// The length that the fields on it state.
fn stated(headers: &[Header<'_>]) -> Result<u32, Refusal>
    ensures { result ≡ stated_length
        (values_of (codes "content-length") (map header_parts headers.now)) }
{
    if count_of(headers, "content-length") > 1 {
        return Err(Refusal::Head);
    }
    match first_of(headers, "content-length") {
        None => Ok(0),
        Some(text) => length_in(text),
    }
}

/// The length that a field states.
fn length_in(text: &[u8]) -> Result<u32, Refusal>
    ensures { result ≡ stated_length (text.now ∷ []) }
{
    if !is_number_text(text) {
        return Err(Refusal::Head);
    }
    number_within(text, LONGEST_BODY).ok_or(Refusal::Long)
}

/// Whether a field on the connection says that the link is to be closed (RFC 9112: the connection
/// option `close`).
pub fn is_closing(headers: &[Header<'_>]) -> bool
    ensures { result ≡ says_close (map header_parts headers.now) }
{
    for header in headers {
        if is_named(header.name, "connection") && has_close(header.value) {
            return true;
        }
    }
    false
}

/// Whether an element between commas is the word `close`.
fn has_close(value: &[u8]) -> bool
    ensures { result ≡ list_any is_close (elements value.now) }
{
    let mut rest = value;
    while let Some(place) = comma_in(rest) {
        let (element, more) = rest.split_at(place);
        if is_close_word(element) {
            return true;
        }
        (_, rest) = more.split_at(1);
    }
    is_close_word(rest)
}

/// The place of the first comma.
fn comma_in(text: &[u8]) -> Option<usize>
    ensures within { MatchOption result (HasNone comma text.now) (λ i. i < length text.now) }
    ensures before { MatchOption result (HasNone comma text.now)
        (λ i. HasNone comma (take i text.now)) }
    ensures here { MatchOption result (HasNone comma text.now)
        (λ i. slice_index text.now i ≡ comma) }
{
    text.iter().position(|b| *b == b',')
}

/// Whether a text is the word, with white space around it.
fn is_close_word(text: &[u8]) -> bool
    ensures { result ≡ is_close text.now }
{
    let word = without_blanks(text);
    let (word, rest) = word.split_at(word.len().min(5));
    is_close_alone(word) && are_blanks(rest)
}

fn is_close_alone(word: &[u8]) -> bool
    ensures { result ≡ str_eq_ignore_ascii_case word.now (codes "close") }
{
    word.eq_ignore_ascii_case(b"close")
}

/// A text from its first byte that is no space or tab.
fn without_blanks(text: &[u8]) -> &[u8]
    ensures { result.now ≡ skip_ows text.now }
{
    let mut rest = text;
    while let [b' ' | b'\t', more @ ..] = rest {
        rest = more;
    }
    rest
}

/// Whether a text has spaces and tabs alone.
fn are_blanks(text: &[u8]) -> bool
    ensures { result ≡ list_all is_ows text.now }
{
    for byte in text {
        if *byte != b' ' && *byte != b'\t' {
            return false;
        }
    }
    true
}

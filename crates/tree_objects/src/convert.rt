//! From a JSON value to a field's value.
ghost use Rattle.std.specs.Prelude.{◌≡◌, ◌<◌, ◌^◌, ℕ, ℤ, List, IfOk, IfSome, IsErrOf, IsTrue, Some, None, Option, is_some, option_map, length, min, ◌-◌, pos, neg_ℤ};
ghost use Rattle.std.specs.Char.{is_ascii_digit};
ghost use Rattle.std.specs.Fmt.{signed_decimal};
ghost use Rattle.std.specs.List.{list_all};
ghost use Rattle.std.specs.Str.Parse.{digits_value};
ghost use Rattle.tree_json.specs.View.{view};
ghost use Rattle.tree_objects.specs.Values.{convert, has_values, bool_name, bool_number, is_numeral, numeral_below, whole_written, bool_written, text_of, long_of, boolean_of, date_of};

use crate::field_value::FieldValue;
use crate::refusal::ValueRefusal;
use date_fields::millis;
use mapping::{Bytes, Kind, NoMemory};
use std::alloc::Global;
use tree_json::{Json, OutText, put_whole, whole_len};

/// The value that a single JSON value is for a field of a kind (Elasticsearch reference, field data types). Lists and
/// null are none: a list stands for its elements, and null for no value.
#[tactic(auto, unfolding(crate::specs::Values::convert))]
pub fn value_of(alloc: Global, kind: Kind, value: &Json) -> Result<FieldValue, ValueRefusal>
    requires { IsTrue (has_values kind) }
    ensures ok { IfOk result (λ v. convert kind (view value.now) ≡ Some v) }
    ensures not_of_kind { IsErrOf result ValueRefusal.NotOfKind → convert kind (view value.now) ≡ None }
{
    match kind {
        Kind::Text => Ok(text_of(alloc, value)?),
        Kind::Keyword => Ok(text_of(alloc, value)?),
        Kind::Long => number_or_refusal(long_of(value)),
        Kind::Boolean => number_or_refusal(boolean_of(value)),
        Kind::Date => number_or_refusal(date_of(value)),
        _ => Err(ValueRefusal::NotOfKind),
    }
}

/// Whether a single JSON value is one for a field of a kind. Takes no memory.
#[tactic(auto, unfolding(crate::specs::Values::convert))]
pub fn is_of_kind(kind: Kind, value: &Json) -> bool
    ensures { result ≡ is_some (convert kind (view value.now)) }
{
    match kind {
        Kind::Text => is_text(value),
        Kind::Keyword => is_text(value),
        Kind::Long => long_of(value).is_some(),
        Kind::Boolean => boolean_of(value).is_some(),
        Kind::Date => date_of(value).is_some(),
        _ => false,
    }
}

fn is_text(value: &Json) -> bool
    ensures { result ≡ is_some (text_of (view value.now)) }
{
    match value {
        Json::Text(_) => true,
        Json::Whole(_) => true,
        Json::Bool(_) => true,
        _ => false,
    }
}

fn number_or_refusal(number: Option<i64>) -> Result<FieldValue, ValueRefusal>
    ensures ok { IfOk result (λ v. option_map (λ z. FieldValue.Number z) number ≡ Some v) }
    ensures not_of_kind { IsErrOf result ValueRefusal.NotOfKind → number ≡ None }
{
    match number {
        Some(number) => Ok(FieldValue::Number(number)),
        None => Err(ValueRefusal::NotOfKind),
    }
}

fn text_of(alloc: Global, value: &Json) -> Result<FieldValue, ValueRefusal>
    ensures ok { IfOk result (λ v. text_of (view value.now) ≡ Some v) }
    ensures not_of_kind { IsErrOf result ValueRefusal.NotOfKind → text_of (view value.now) ≡ None }
{
    match value {
        Json::Text(text) => Ok(FieldValue::Written(copied(alloc, text.as_slice())?)),
        Json::Whole(number) => Ok(FieldValue::Written(decimal(alloc, *number)?)),
        Json::Bool(true) => Ok(FieldValue::Written(copied(alloc, b"true")?)),
        Json::Bool(false) => Ok(FieldValue::Written(copied(alloc, b"false")?)),
        _ => Err(ValueRefusal::NotOfKind),
    }
}

fn copied(alloc: Global, bytes: &[u8]) -> Result<Bytes, NoMemory>
    ensures { IfOk result (λ b. b ≡ bytes.now) }
{
    Ok(Bytes::of(bytes.to_vec(alloc)?))
}

/// The decimal text of a number.
fn decimal(alloc: Global, number: i64) -> Result<Bytes, NoMemory>
    ensures { IfOk result (λ b. b ≡ signed_decimal number) }
{
    let mut text = OutText::empty(alloc);
    match text.reserve(whole_len(number)) {
        Ok(()) => {
            put_whole(number, &mut text);
            Ok(Bytes::of(text.into_vec()))
        }
        Err(_) => Err(NoMemory),
    }
}

pub(crate) fn long_of(value: &Json) -> Option<i64>
    ensures { option_map (λ z. FieldValue.Number z) result ≡ long_of (view value.now) }
{
    match value {
        Json::Whole(number) => Some(*number),
        Json::Text(text) => whole_written(text.as_slice()),
        _ => None,
    }
}

pub(crate) fn boolean_of(value: &Json) -> Option<i64>
    ensures { option_map (λ z. FieldValue.Number z) result ≡ boolean_of (view value.now) }
{
    match value {
        Json::Bool(true) => Some(1),
        Json::Bool(false) => Some(0),
        Json::Text(text) => bool_number_written(text.as_slice()),
        _ => None,
    }
}

fn bool_number_written(text: &[u8]) -> Option<i64>
    ensures { result ≡ option_map (λ b. bool_number b) (bool_written text.now) }
{
    if text == b"true".as_slice() {
        Some(1)
    } else if text == b"false".as_slice() {
        Some(0)
    } else if text == b"".as_slice() {
        Some(0)
    } else {
        None
    }
}

pub(crate) fn date_of(value: &Json) -> Option<i64>
    ensures { option_map (λ z. FieldValue.Number z) result ≡ date_of (view value.now) }
{
    match value {
        Json::Whole(number) => Some(*number),
        Json::Text(text) => millis(text.as_str()),
        _ => None,
    }
}

/// The whole number of 64 bits, signed, that an optional `-` and decimal digits write.
fn whole_written(text: &[u8]) -> Option<i64>
    ensures { result ≡ whole_written text.now }
{
    match text {
        [] => None,
        [first, digits @ ..] => {
            if *first == b'-' {
                negative(numeral_below(9_223_372_036_854_775_809, digits))
            } else {
                positive(numeral_below(9_223_372_036_854_775_808, text))
            }
        }
    }
}

fn negative(number: Option<u64>) -> Option<i64>
    requires { IfSome number (λ n. n < 9_223_372_036_854_775_809) }
    ensures { result ≡ option_map (λ n. neg_ℤ (pos n)) number }
{
    match number {
        Some(number) => if number == 9_223_372_036_854_775_808 {
            Some(i64::MIN)
        } else {
            Some(-(number as i64))
        },
        None => None,
    }
}

fn positive(number: Option<u64>) -> Option<i64>
    requires { IfSome number (λ n. n < 9_223_372_036_854_775_808) }
    ensures { result ≡ option_map (λ n. pos n) number }
{
    match number {
        Some(number) => Some(number as i64),
        None => None,
    }
}

/// The number that decimal digits write, if it is below a limit.
fn numeral_below(limit: u64, digits: &[u8]) -> Option<u64>
    ensures value { result ≡ numeral_below limit digits.now }
    ensures bound { IfSome result (λ n. n < limit) }
{
    if !is_numeral(digits) {
        return None;
    }
    let number = value_written(digits);
    if number < limit { Some(number) } else { None }
}

fn is_numeral(digits: &[u8]) -> bool
    ensures { result ≡ is_numeral digits.now }
{
    !digits.is_empty() && are_digits(digits)
}

fn are_digits(digits: &[u8]) -> bool
    ensures { result ≡ list_all is_ascii_digit digits.now }
{
    digits.iter().all(|byte| byte.is_ascii_digit())
}

/// The number that digits write, or the greatest u64 where it is greater.
fn value_written(digits: &[u8]) -> u64
    requires { IsTrue (list_all is_ascii_digit digits.now) }
    ensures { result ≡ min (digits_value 10 digits.now) (2 ^ 64 - 1) }
{
    let mut number: u64 = 0;
    'digits: for digit in digits {
        number = number
            .saturating_mul(10)
            .saturating_add(digit_of(*digit) as u64);
    }
    number
}

/// The value of a decimal digit.
fn digit_of(byte: u8) -> u8
    ensures { result ≡ byte - 48 }
{
    byte.saturating_sub(b'0')
}

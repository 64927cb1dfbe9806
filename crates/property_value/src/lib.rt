// One property at an index of a slice, an identifier byte and a value: the body of the loops in publish.rs, subscribe.rs and puback.rs,
// once for all kinds of packet. The end of the slice is the end of its room.
#![tactic(auto)]

ghost use Rattle.std.specs.Prelude.{◌≡◌};
ghost use Rattle.std.proofs.Math.Option.{some};
ghost use Rattle.grammar.specs.Tables.{number, pair};
ghost use Rattle.positions.specs.Position.{from_at};
ghost use Rattle.numbers.specs.NumberRead.{told_got_number};
ghost use Rattle.tables.specs.Property.{table_row, told_form};
ghost use Rattle.property_value.specs.OneProperty.{property_got, identifier_of, ValueRead, PropertyRead, publish_lists, ValuePassed, PropertyPassed};

use numbers::fixed;
use records::error::Error;
use records::span::Span;
use tables::property;
use tables::property::{PropertyForm, PropertyRow};
use var_length;
use wire::string;

// A value, by its form.
#[derive(Clone, Copy)]
pub enum Value {
    U8(u8),
    U16(u16),
    U32(u32),
    Number(u32),
    Text(Span),
    Bytes(Span),
    Pair(Span, Span),
}

// The identifier, the value, and the index after it; or the refusal. An enum of its own: in a Result, value and refusal share one place, in which
// so wide a value was put together from narrow stores, and the load waited for them. A property then took half as long again, and more
// (docs/LOOK-BACK.md, d).
#[derive(Clone, Copy)]
pub enum GotProperty {
    Found(u8, Value, usize),
    Refused(Error),
}

// The two texts of property k.
fn read_pair(k: u8, s: &[u8], at: usize) -> GotProperty
    ensures { ValueRead (some pair) k s.now at (property_got result) }
{
    match string::read_mqtt_string(s, at) {
        Err(e) => GotProperty::Refused(e),
        Ok((x, m)) => match string::read_mqtt_string(s, m) {
            Err(e) => GotProperty::Refused(e),
            Ok((y, n)) => GotProperty::Found(k, Value::Pair(x, y), n),
        },
    }
}

// The number of a subscription identifier, which is not 0.
fn read_identifier(s: &[u8], at: usize) -> Result<(u32, usize), Error>
    ensures { told_got_number result ≡ from_at identifier_of s.now at }
{
    let (x, n) = var_length::read_length(s, at)?;
    if x == 0 {
        return Err(Error::SubscriptionIdZero);
    }
    Ok((x, n))
}

// The value of property k, which has this form.
fn read_value(form: PropertyForm, k: u8, s: &[u8], at: usize) -> GotProperty
    ensures { ValueRead (told_form (Some form)) k s.now at (property_got result) }
{
    match form {
        PropertyForm::U8 => match fixed::read_u8(s, at) {
            Ok((x, n)) => GotProperty::Found(k, Value::U8(x), n),
            Err(e) => GotProperty::Refused(e),
        },
        PropertyForm::U16 => match fixed::read_u16(s, at) {
            Ok((x, n)) => GotProperty::Found(k, Value::U16(x), n),
            Err(e) => GotProperty::Refused(e),
        },
        PropertyForm::U32 => match fixed::read_u32(s, at) {
            Ok((x, n)) => GotProperty::Found(k, Value::U32(x), n),
            Err(e) => GotProperty::Refused(e),
        },
        PropertyForm::Number => match read_identifier(s, at) {
            Ok((x, n)) => GotProperty::Found(k, Value::Number(x), n),
            Err(e) => GotProperty::Refused(e),
        },
        PropertyForm::Text => match string::read_mqtt_string(s, at) {
            Ok((x, n)) => GotProperty::Found(k, Value::Text(x), n),
            Err(e) => GotProperty::Refused(e),
        },
        PropertyForm::Bytes => match string::read_mqtt_bytes(s, at) {
            Ok((x, n)) => GotProperty::Found(k, Value::Bytes(x), n),
            Err(e) => GotProperty::Refused(e),
        },
        PropertyForm::Pair => read_pair(k, s, at),
    }
}

// The property at index `at` of a block: its identifier, its value in the form of its row, and the index after it; else 2, 7, 8, 9, 10 or 23.
// It has more callers than one, so that it stays a call, and what `read_property` makes of its answer goes into the caller.
pub fn find_property(row: PropertyRow, s: &[u8], at: usize) -> GotProperty
    ensures { PropertyRead (table_row row) s.now at (property_got result) }
{
    match fixed::read_u8(s, at) {
        Err(e) => GotProperty::Refused(e),
        Ok((k, next)) => match property::property(row, k) {
            None => GotProperty::Refused(Error::InvalidPropertyType(k)),
            Some(form) => read_value(form, k, s, next),
        },
    }
}

// The same as a Result: the property at index `at` of a block, its identifier, its value in the form of its row, and the index after it; else 2,
// 7, 8, 9, 10 or 23.
pub fn read_property(row: PropertyRow, s: &[u8], at: usize) -> Result<(u8, Value, usize), Error>
    ensures { PropertyRead (table_row row) s.now at result }
{
    match find_property(row, s, at) {
        GotProperty::Found(k, v, next) => Ok((k, v, next)),
        GotProperty::Refused(e) => Err(e),
    }
}

// The index after the two texts of a user property, which begin at `start`; `at` if they do not stand there.
fn pass_pair(s: &[u8], at: usize, start: usize) -> usize
    ensures { ValuePassed pair 38 s.now at start result }
{
    match string::read_mqtt_string(s, start) {
        Err(_) => at,
        Ok((_, m)) => match string::read_mqtt_string(s, m) {
            Err(_) => at,
            Ok((_, n)) => n,
        },
    }
}

// The same of the number of a subscription identifier.
fn pass_number(s: &[u8], at: usize, start: usize) -> usize
    ensures { ValuePassed number 11 s.now at start result }
{
    match read_identifier(s, start) {
        Err(_) => at,
        Ok((_, next)) => next,
    }
}

// The index after a property that a Publish keeps in a list, which the loop over its block passes over; `at` if none stands there whole.
// The answer is one number and no span, so that it stays in a register.
pub fn pass_listed(s: &[u8], at: usize) -> usize
    ensures { PropertyPassed publish_lists s.now at result }
{
    match fixed::read_u8(s, at) {
        Err(_) => at,
        Ok((k, start)) => match k {
            38 => pass_pair(s, at, start),
            11 => pass_number(s, at, start),
            0..=10 | 12..=37 | 39..=255 => at,
        },
    }
}

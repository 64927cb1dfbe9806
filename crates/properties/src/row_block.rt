// The properties of a row, after the `read`s of the property structs of subscribe.rs, puback.rs and their like. A reason string or an
// identifier given twice is refused; the user properties are left in the block, and the record keeps where it stands.
ghost use Rattle.std.specs.Prelude.{◌≡◌, length};
ghost use Rattle.std.proofs.Math.Option.{some};
ghost use Rattle.grammar.specs.Tables.{form_at};
ghost use Rattle.reading.specs.Read.{block_of, props_as};
ghost use Rattle.reading.specs.Place.{as_places};
ghost use Rattle.positions.specs.Position.{from_at};
ghost use Rattle.records.specs.AsNumbers.{told_span};
ghost use Rattle.records.specs.Said.{told_properties};
ghost use Rattle.tables.specs.Property.{table_row, other_of};
ghost use Rattle.property_value.specs.OneProperty.{told_value, form_of};
ghost use Rattle.properties.specs.Block.{said_of, props_said, props_row, applied, filled_at, told_block_at};

use crate::block;
use property_value::{GotProperty, Value};
use records::error::Error;
use records::properties_record::Properties;
use records::span::Span;
use tables::property;
use tables::property::OtherRow;

// One property more: 31 is a text and 11 a number wherever they stand, and the record keeps no other.
fn apply(row: OtherRow, p: Properties, k: u8, v: Value) -> Properties
    requires { form_at (table_row (other_of row)) k ≡ some (form_of v) }
    ensures { told_properties result ≡ applied (props_row (table_row (other_of row))) (told_properties p) (k, told_value v) }
{
    match v {
        Value::Text(x) => {
            if k == 31 {
                return Properties {
                    reason_string: Some(x),
                    ..p
                };
            }
            p
        }
        Value::Number(x) => {
            if k == 11 {
                return Properties { id: Some(x), ..p };
            }
            p
        }
        Value::U8(_) => p,
        Value::U16(_) => p,
        Value::U32(_) => p,
        Value::Bytes(_) => p,
        Value::Pair(_, _) => p,
    }
}

// Whether the single-valued property k is there.
fn has(p: Properties, k: u8) -> bool
    ensures { result ≡ said_of (props_said (told_properties p)) k }
{
    if k == 31 {
        return p.reason_string.is_some();
    }
    if k == 11 {
        return p.id.is_some();
    }
    false
}

// The block that stands at `block`, which ends where the slice does: no read goes past it (D2). The single values, and the place of the lists;
// 22 where a single one is met again, or the first refusal.
pub fn fill(row: OtherRow, s: &[u8], block: Span) -> Result<(Option<Properties>, usize), Error>
    ensures { told_block_at result ≡ filled_at (props_row (table_row (other_of row))) s.now (told_span block) }
{
    let mut p = Properties {
        reason_string: None,
        id: None,
        block,
    };
    let mut at = block.start;
    while at < s.len() {
        let first = s[at];
        if has(p, first) {
            return Err(Error::DuplicateProperty(first));
        }
        match property_value::find_property(property::as_row(row), s, at) {
            GotProperty::Found(k, v, next) => {
                p = apply(row, p, k, v);
                at = next;
            }
            GotProperty::Refused(e) => return Err(e),
        }
    }
    Ok((Some(p), s.len()))
}

// The block of a row at index `at`: its L, and its properties; absent where L is 0.
pub fn read_block(row: OtherRow, s: &[u8], at: usize) -> Result<(Option<Properties>, usize), Error>
    ensures { told_block_at result ≡ from_at (block_of as_places (table_row (other_of row)) (props_as as_places) (length s.now)) s.now at }
{
    let (block, end) = block::read_room(s, at)?;
    if block.len == 0 {
        return Ok((None, end));
    }
    fill(row, &s[..end], block)
}

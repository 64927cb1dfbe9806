// Which form a property's value has in a row: `property` of v5/mod.rs, with the rows of 01's table in place of the reads'
// own matches.
ghost use Rattle.std.specs.Prelude.{◌≡◌};
ghost use Rattle.grammar.specs.Tables.{publish_row, subscribe_row, ack_row, unsubscribe_row, form_at};
ghost use Rattle.tables.specs.Property.{told_form, table_row, other_of};

// Which row of 01's table.
#[derive(Clone, Copy)]
pub enum PropertyRow {
    Publish,
    Subscribe,
    Ack,
    Unsubscribe,
}

// A row that is not Publish's.
#[derive(Clone, Copy)]
pub enum OtherRow {
    Subscribe,
    Ack,
    Unsubscribe,
}

// The form of a property's value.
#[derive(Clone, Copy)]
pub enum PropertyForm {
    U8,
    U16,
    U32,
    Number,
    Text,
    Bytes,
    Pair,
}

// The form of a property of a Publish.
fn publish_property(num: u8) -> Option<PropertyForm>
    ensures { told_form result ≡ form_at publish_row num }
{
    match num {
        1 => Some(PropertyForm::U8),
        2 => Some(PropertyForm::U32),
        35 => Some(PropertyForm::U16),
        8 => Some(PropertyForm::Text),
        9 => Some(PropertyForm::Bytes),
        38 => Some(PropertyForm::Pair),
        11 => Some(PropertyForm::Number),
        3 => Some(PropertyForm::Text),
        0 | 4..=7 | 10 | 12..=34 | 36..=37 | 39..=255 => None,
    }
}

// The form of a property of a Subscribe.
fn subscribe_property(num: u8) -> Option<PropertyForm>
    ensures { told_form result ≡ form_at subscribe_row num }
{
    match num {
        11 => Some(PropertyForm::Number),
        38 => Some(PropertyForm::Pair),
        0..=10 | 12..=37 | 39..=255 => None,
    }
}

// The form of a property of an acknowledgement: PubAck, PubRec, PubRel, PubComp, SubAck, UnsubAck.
fn ack_property(num: u8) -> Option<PropertyForm>
    ensures { told_form result ≡ form_at ack_row num }
{
    match num {
        31 => Some(PropertyForm::Text),
        38 => Some(PropertyForm::Pair),
        0..=30 | 32..=37 | 39..=255 => None,
    }
}

// The form of a property of an Unsubscribe.
fn unsubscribe_property(num: u8) -> Option<PropertyForm>
    ensures { told_form result ≡ form_at unsubscribe_row num }
{
    match num {
        38 => Some(PropertyForm::Pair),
        0..=37 | 39..=255 => None,
    }
}

// One of the rows beside Publish's, as a row.
pub fn as_row(other: OtherRow) -> PropertyRow
    ensures { result ≡ other_of other }
{
    match other {
        OtherRow::Subscribe => PropertyRow::Subscribe,
        OtherRow::Ack => PropertyRow::Ack,
        OtherRow::Unsubscribe => PropertyRow::Unsubscribe,
    }
}

// The form of a property in a row, or none.
pub fn property(row: PropertyRow, num: u8) -> Option<PropertyForm>
    ensures { told_form result ≡ form_at (table_row row) num }
{
    match row {
        PropertyRow::Publish => publish_property(num),
        PropertyRow::Subscribe => subscribe_property(num),
        PropertyRow::Ack => ack_property(num),
        PropertyRow::Unsubscribe => unsubscribe_property(num),
    }
}

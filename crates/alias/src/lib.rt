// Topics by alias, 02's P6: a lent table of 2,064 bytes, for aliases 1 to 16 in turn a length byte and 128 bytes for the topic. Whoever owns
// the table fills it with zeros where a connection begins.
#![tactic(auto)]

ghost use Rattle.std.specs.Prelude.{◌≡◌, true, ◌≤◌, length};
ghost use Rattle.std.proofs.Math.Option.{none, some};
ghost use Rattle.reading.specs.Reader.{got};
ghost use Rattle.records.specs.AsNumbers.{told_span, told_number_if, number_if, row_of};
ghost use Rattle.publish_parts.specs.Parts.{topic_in};
ghost use Rattle.alias.specs.Table.{lengths_good, table_good, set_alias};
ghost use Rattle.alias.specs.Alias.{permit, is_alias, of_alias, set_by, stored_at, in_force};
ghost use Rattle.alias.specs.AliasAnswer.{alias_told, alias_in, told_alias, told_judged, told_lies, told_placed, Learnt, PartIn};

use records::publish_record::Publish;
use records::span::Span;
use wire::string;

// The refusals of P6, in its order: 24 to 28.
#[derive(Clone, Copy)]
pub enum AliasError {
    // 24: the table has the wrong size, or a stored length above 128
    AliasTableBad,
    // 25: alias 0 or above 16
    AliasInvalid,
    // 26: empty topic and no alias
    TopicMissing,
    // 27: empty topic and alias never set
    AliasUnknown,
    // 28: topic over 128 bytes with an alias
    AliasNoRoom,
}

// The number of a refusal, 24 to 28; none has values.
// No discriminants: two alike would not compile, and the edit missing_as_unknown plants them.
pub fn number(e: AliasError) -> u8
    ensures { result ≡ row_of (told_alias e) }
{
    match e {
        AliasError::AliasTableBad => 24,
        AliasError::AliasInvalid => 25,
        AliasError::TopicMissing => 26,
        AliasError::AliasUnknown => 27,
        AliasError::AliasNoRoom => 28,
    }
}

// ---- which messages are refused

// Is no stored length above 128?
fn lengths_good(table: &[u8]) -> bool
    requires { length table.now ≡ 2064 }
    ensures { result ≡ lengths_good 16 table.now }
{
    for n in 0..16 {
        if 128 < table[n * 129] {
            return false;
        }
    }
    true
}

// A message without an alias.
fn judge_plain(table: &[u8], topic: &[u8]) -> Result<(), AliasError>
    requires { table_good table.now ≡ true }
    ensures { told_judged result ≡ permit table.now topic.now none }
{
    if topic.is_empty() {
        return Err(AliasError::TopicMissing);
    }
    Ok(())
}

// A message with an alias.
fn judge_alias(table: &[u8], topic: &[u8], alias: u16) -> Result<(), AliasError>
    requires { table_good table.now ≡ true }
    ensures { told_judged result ≡ permit table.now topic.now (some alias) }
{
    if alias == 0 || 16 < alias {
        return Err(AliasError::AliasInvalid);
    }
    if topic.is_empty() {
        let at = (alias as usize - 1) * 129;
        if table[at] == 0 {
            return Err(AliasError::AliasUnknown);
        }
        return Ok(());
    }
    if 128 < topic.len() {
        return Err(AliasError::AliasNoRoom);
    }
    Ok(())
}

// Is a message with this topic, and perhaps an alias, refused on this table? 24 to 28, in P6's order.
pub fn judge(table: &[u8], topic: &[u8], alias: Option<u16>) -> Result<(), AliasError>
    ensures { told_judged result ≡ permit table.now topic.now (number_if alias) }
{
    if table.len() != 2064 || !lengths_good(table) {
        return Err(AliasError::AliasTableBad);
    }
    match alias {
        None => judge_plain(table, topic),
        Some(a) => judge_alias(table, topic, a),
    }
}

// The alias of a message.
fn alias_of(m: Publish) -> Option<u16>
    ensures { told_number_if result ≡ alias_told m }
{
    m.properties?.topic_alias
}

// ---- setting

// Sets an alias: its length and its topic.
fn set(table: &mut [u8], alias: u16, topic: &[u8])
    requires { (1 ≤ alias) × (alias ≤ 16) × (length topic.now ≤ 128) × (length table.old ≡ 2064) }
    ensures { table.new ≡ set_alias table.old alias topic.now }
{
    let at = (alias as usize - 1) * 129;
    let len = topic.len() as u8;
    table[at] = len;
    write_bytes::put_bytes(table, at + 1, topic);
}

// Sets the alias of a message that has a topic and an alias.
fn set_by(table: &mut [u8], topic: &[u8], alias: Option<u16>)
    requires { permit table.old topic.now (number_if alias) ≡ got tt }
    ensures { table.new ≡ set_by table.old topic.now (number_if alias) }
{
    if let Some(a) = alias {
        if 0 < topic.len() {
            set(table, a, topic);
        }
    }
}

// A message with this topic, and perhaps an alias: the answer, and the alias set. A refusal leaves the table alone.
pub fn learn_topic(table: &mut [u8], topic: &[u8], alias: Option<u16>) -> Result<(), AliasError>
    ensures { Learnt table.old topic.now (number_if alias) table.new result }
{
    judge(table, topic, alias)?;
    set_by(table, topic, alias);
    Ok(())
}

// The same of a Publish that was read from `stream`.
pub fn learn(table: &mut [u8], stream: &[u8], m: Publish) -> Result<(), AliasError>
    ensures { Learnt table.old (topic_in stream.now m) (alias_in m) table.new result }
{
    learn_topic(table, publish_parts::topic(stream, m), alias_of(m))
}

// ---- the topic in force

// Where the topic in force lies: in the stream that the packet was read from, or in the table.
#[derive(Clone, Copy)]
pub enum Placed {
    InPacket(Span),
    InTable(Span),
}

// Where the topic lies that is stored for an alias; without one, where the packet's own does.
fn stored_place(table: &[u8], own: Span, alias: Option<u16>) -> Placed
    requires { (table_good table.now ≡ true) × (of_alias true is_alias (number_if alias) ≡ true) }
    ensures { told_lies result ≡ stored_at table.now (told_span own) (number_if alias) }
{
    match alias {
        None => Placed::InPacket(own),
        Some(a) => {
            let at = (a as usize - 1) * 129;
            let len = table[at] as usize;
            Placed::InTable(Span { start: at + 1, len })
        }
    }
}

// Where the topic in force lies of a message whose own topic stands at `own` of `stream`. It may be asked before the message is learnt or
// after.
pub fn find_topic(
    stream: &[u8],
    table: &[u8],
    own: Span,
    alias: Option<u16>,
) -> Result<Placed, AliasError>
    ensures { told_placed result ≡ in_force stream.now table.now (told_span own) (number_if alias) }
{
    let topic = string::part(stream, own);
    judge(table, topic, alias)?;
    if 0 < topic.len() {
        return Ok(Placed::InPacket(own));
    }
    Ok(stored_place(table, own, alias))
}

// The same of a Publish that was read from `stream`.
pub fn place_in_force(stream: &[u8], table: &[u8], m: Publish) -> Result<Placed, AliasError>
    ensures { told_placed result ≡ in_force stream.now table.now (told_span m.topic) (alias_in m) }
{
    find_topic(stream, table, m.topic, alias_of(m))
}

// The topic in force of a Publish: a part of the stream that it was read from, or of the table; the empty part of the stream where it is
// refused.
pub fn topic_in_force<'a>(stream: &'a [u8], table: &'a [u8], m: Publish) -> &'a [u8]
    ensures { PartIn stream.entry table.entry (in_force stream.now table.now (told_span m.topic) (alias_in m)) result }
{
    match place_in_force(stream, table, m) {
        Ok(Placed::InPacket(p)) => string::part(stream, p),
        Ok(Placed::InTable(p)) => string::part(table, p),
        Err(_) => string::part(stream, Span { start: 0, len: 0 }),
    }
}

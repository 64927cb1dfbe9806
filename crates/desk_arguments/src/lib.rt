// The words that `desk` is started with: `desk [--limit N] [--topic FILTER] [--payload N] [--ascii] [FILE]`, and `--status` and
// `--colour`, which the script at the top hands over.
#![tactic(auto)]

ghost use Rattle.std.specs.Prelude.{◌≡◌};
ghost use Rattle.std.proofs.Math.Option.{some};
ghost use Rattle.desk_arguments.specs.Words.{same, is_option, grow, number_of, told_number, said_of, unasked, as_bad, as_awaiting, as_styled, with_limit, with_most, with_name, with_said, with_word, with_end};

// How lines are shown.
#[derive(Clone, Copy)]
pub struct Style {
    // every byte that is not ASCII as `\xHH`
    pub ascii: bool,
    // in colour; the script asks for it on a terminal
    pub colour: bool,
    // so many bytes of a payload
    pub most: Option<usize>,
}

// What the next word is.
#[derive(Clone, Copy)]
pub enum Awaited {
    Nothing,
    Limit,
    Topic,
    Payload,
}

#[derive(Clone, Copy)]
pub struct Asked {
    // which word names the file; 0 for standard input
    pub file: usize,
    pub limit: Option<usize>,
    // the exit status is to be told
    pub status: bool,
    // no words of desk's
    pub bad: bool,
    // the file, or `-`, was named
    pub named: bool,
    // which word is the filter of topics; 0 for none
    pub topic: usize,
    pub style: Style,
    pub awaits: Awaited,
}

// What a word says that no other waits for.
#[derive(Clone, Copy)]
enum Said {
    Limit,
    Topic,
    Payload,
    Ascii,
    Colour,
    Status,
    // an option that is none of desk's
    Unknown,
    Name,
}

// Are they the same bytes?
fn is_same(a: &[u8], b: &[u8]) -> bool
    ensures { result ≡ same a.now b.now }
{
    a == b
}

// The number n with the digit b behind it.
fn grown(n: usize, b: u8) -> Option<usize>
    ensures { told_number result ≡ grow (some n) b }
{
    let d = b.checked_sub(48)?;
    if 9 < d {
        return None;
    }
    n.checked_mul(10)?.checked_add(d as usize)
}

// A number in decimal that 64 bits hold.
fn number(s: &[u8]) -> Option<usize>
    ensures { told_number result ≡ number_of s.now }
{
    if s.is_empty() {
        return None;
    }
    let mut n = 0;
    for b in s {
        n = grown(n, *b)?;
    }
    Some(n)
}

// An option starts with `-` and has more than that.
fn is_option(w: &[u8]) -> bool
    ensures { result ≡ is_option w.now }
{
    if w.len() < 2 {
        return false;
    }
    w[0] == 45
}

// What a word says.
fn said_by(w: &[u8]) -> Said
    ensures { result ≡ said_of w.now }
{
    if is_same(w, b"--limit") {
        return Said::Limit;
    }
    if is_same(w, b"--topic") {
        return Said::Topic;
    }
    if is_same(w, b"--payload") {
        return Said::Payload;
    }
    if is_same(w, b"--ascii") {
        return Said::Ascii;
    }
    if is_same(w, b"--colour") {
        return Said::Colour;
    }
    if is_same(w, b"--status") {
        return Said::Status;
    }
    if is_option(w) {
        return Said::Unknown;
    }
    Said::Name
}

fn as_bad(a: Asked) -> Asked
    ensures { result ≡ as_bad a }
{
    Asked {
        bad: true,
        awaits: Awaited::Nothing,
        ..a
    }
}

fn awaiting(a: Asked, awaits: Awaited) -> Asked
    ensures { result ≡ as_awaiting a awaits }
{
    Asked { awaits, ..a }
}

fn styled(a: Asked, style: Style) -> Asked
    ensures { result ≡ as_styled a style }
{
    Asked {
        style,
        awaits: Awaited::Nothing,
        ..a
    }
}

// N behind `--limit`.
fn with_limit(a: Asked, w: &[u8]) -> Asked
    ensures { result ≡ with_limit a (number_of w.now) }
{
    match number(w) {
        Some(n) => Asked {
            limit: Some(n),
            awaits: Awaited::Nothing,
            ..a
        },
        None => as_bad(a),
    }
}

// N behind `--payload`.
fn with_most(a: Asked, w: &[u8]) -> Asked
    ensures { result ≡ with_most a (number_of w.now) }
{
    let style = a.style;
    match number(w) {
        Some(n) => styled(
            a,
            Style {
                most: Some(n),
                ..style
            },
        ),
        None => as_bad(a),
    }
}

// The file, which is named once; `-` is standard input.
fn with_name(a: Asked, w: &[u8], i: usize) -> Asked
    ensures { result ≡ with_name a w.now i }
{
    if a.named {
        return as_bad(a);
    }
    if is_same(w, b"-") {
        return Asked { named: true, ..a };
    }
    Asked {
        file: i,
        named: true,
        ..a
    }
}

// What is asked before the first word.
pub fn none() -> Asked
    ensures { result ≡ unasked }
{
    Asked {
        file: 0,
        limit: None,
        status: false,
        bad: false,
        named: false,
        topic: 0,
        style: Style {
            ascii: false,
            colour: false,
            most: None,
        },
        awaits: Awaited::Nothing,
    }
}

// With a word that no other waits for.
fn with_said(a: Asked, said: Said, w: &[u8], i: usize) -> Asked
    ensures { result ≡ with_said a said w.now i }
{
    let style = a.style;
    match said {
        Said::Limit => awaiting(a, Awaited::Limit),
        Said::Topic => awaiting(a, Awaited::Topic),
        Said::Payload => awaiting(a, Awaited::Payload),
        Said::Ascii => styled(
            a,
            Style {
                ascii: true,
                ..style
            },
        ),
        Said::Colour => styled(
            a,
            Style {
                colour: true,
                ..style
            },
        ),
        Said::Status => Asked { status: true, ..a },
        Said::Unknown => as_bad(a),
        Said::Name => with_name(a, w, i),
    }
}

// What is asked with the i-th word, w, behind those before it.
pub fn with_word(a: Asked, w: &[u8], i: usize) -> Asked
    ensures { result ≡ with_word a w.now i }
{
    let awaits = a.awaits;
    match awaits {
        Awaited::Limit => with_limit(a, w),
        Awaited::Topic => Asked {
            topic: i,
            awaits: Awaited::Nothing,
            ..a
        },
        Awaited::Payload => with_most(a, w),
        Awaited::Nothing => with_said(a, said_by(w), w, i),
    }
}

// What is asked after the last word: what is awaited still is bad.
pub fn ended(a: Asked) -> Asked
    ensures { result ≡ with_end a }
{
    let awaits = a.awaits;
    match awaits {
        Awaited::Limit => as_bad(a),
        Awaited::Topic => as_bad(a),
        Awaited::Payload => as_bad(a),
        Awaited::Nothing => a,
    }
}

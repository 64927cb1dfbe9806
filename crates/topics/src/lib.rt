// Topics and filters over bytes, after mqttbytes/mod.rs: `has_wildcards`, `valid_topic`, `valid_filter`, `matches`. Short levels go byte by byte,
// longer ones by sixteens, which the compiler tests at once.
#![tactic(auto)]

ghost use Rattle.std.specs.Prelude.{◌≡◌, true, ◌+◌, ◌≤◌, ◌<◌, length, take};
ghost use Rattle.topics.specs.Levels.{levels, is_wild, has_wild, lone, hash, plus, level_fine, levels_fine, valid_topic, valid_filter};
ghost use Rattle.topics.specs.Match.{same, rest_matches, matches_of, barred};
ghost use Rattle.topics.specs.Step.{level_len, Ends, ends_at, HaveMet, Decides, Halves};

use std::ops::ControlFlow;

// ---- wildcards

// Is the byte a wildcard?
fn is_wild(b: u8) -> bool
    ensures { result ≡ is_wild b }
{
    b == b'+' || b == b'#'
}

// Is one byte of a run a wildcard? All are asked, with no way out, so that the compiler tests a run of a known length at once.
fn wild_in(run: &[u8]) -> bool
    ensures { result ≡ has_wild run.now }
{
    let mut any = false;
    for b in run {
        any |= is_wild(*b);
    }
    any
}

// The same by runs of N; the last may be asked in part twice.
fn wild_runs<const N: usize>(s: &[u8]) -> bool
    requires { (0 < N) × (N ≤ length s.now) }
    ensures { result ≡ has_wild s.now }
{
    let mut rest = s;
    while let Some((run, more)) = rest.split_first_chunk::<N>() {
        if wild_in(run) {
            return true;
        }
        rest = more;
    }
    wild_in(&s[s.len() - N..])
}

// The same of eight and more. It has two callers, so that it stays a call, and what is small before it goes into the caller.
fn wild_long(s: &[u8]) -> bool
    requires { 8 ≤ length s.now }
    ensures { result ≡ has_wild s.now }
{
    if s.len() < 16 {
        return wild_runs::<8>(s);
    }
    wild_runs::<16>(s)
}

// Does a topic or filter have wildcards, a + or a # somewhere?
pub fn has_wildcards(s: &[u8]) -> bool
    ensures { result ≡ has_wild s.now }
{
    if s.len() < 8 {
        return s.iter().any(|b| is_wild(*b));
    }
    wild_long(s)
}

// Is a topic valid? It has no wildcards; the empty one is.
pub fn valid_topic(topic: &[u8]) -> bool
    ensures { result ≡ valid_topic topic.now }
{
    !has_wildcards(topic)
}

// ---- levels

// The length of the first level, byte by byte.
fn len_near(s: &[u8]) -> usize
    ensures { Ends s.now result }
{
    s.iter().position(|b| *b == b'/').unwrap_or(s.len())
}

// The same by sixteens until one of them is a separator.
fn len_far(s: &[u8]) -> usize
    ensures { Ends s.now result }
{
    let mut rest = s;
    while let Some((run, more)) = rest.split_first_chunk::<16>() {
        if run.contains(&b'/') {
            break;
        }
        rest = more;
    }
    s.len() - rest.len() + len_near(rest)
}

// The same. Most are short: twelve bytes are asked one by one.
fn level_len(s: &[u8]) -> usize
    ensures { Ends s.now result }
{
    let Some((near, far)) = s.split_first_chunk::<12>() else {
        return len_near(s);
    };
    let n = len_near(near);
    if n < 12 {
        return n;
    }
    12 + len_far(far)
}

// Is a level this byte and nothing else?
fn is_lone(level: &[u8], b: u8) -> bool
    ensures { result ≡ lone b level.now }
{
    level.len() == 1 && level[0] == b
}

// Does a level end at index n, at a separator or at the end?
fn ends_at(s: &[u8], n: usize) -> bool
    ensures { result ≡ ends_at s.now n }
{
    match s.get(n) {
        Some(b) => *b == b'/',
        None => n == s.len(),
    }
}

// Is the first level of a topic this one, which has no separator? The topic's is not looked for: it must stand right behind the level.
fn is_first(topic: &[u8], level: &[u8]) -> bool
    requires { level_len level.now ≡ length level.now }
    ensures { result ≡ same level.now (take (level_len topic.now) topic.now) }
{
    ends_at(topic, level.len()) && topic.starts_with(level)
}

// ---- valid filters

// May this level stand in a filter, where last says whether it is the last?
fn level_fine(level: &[u8], last: bool) -> bool
    ensures { result ≡ level_fine last level.now }
{
    if level.len() == 1 {
        return last || level[0] != b'#';
    }
    !has_wildcards(level)
}

// Is each level of a filter fine?
fn levels_fine(filter: &[u8]) -> bool
    ensures { result ≡ levels_fine (levels filter.now) }
{
    let mut rest = filter;
    let mut end = level_len(rest);
    while end < rest.len() {
        if !level_fine(&rest[..end], false) {
            return false;
        }
        rest = &rest[end + 1..];
        end = level_len(rest);
    }
    level_fine(rest, true)
}

// Is a filter valid? It is not empty, + and # fill their levels, and # stands last. One of eight bytes and more that has no wildcards is; else
// level by level.
pub fn valid_filter(filter: &[u8]) -> bool
    ensures { result ≡ valid_filter filter.now }
{
    if filter.is_empty() {
        return false;
    }
    if 8 <= filter.len() && !wild_long(filter) {
        return true;
    }
    levels_fine(filter)
}

// ---- matching

// What the first levels of topic and filter say: the answer, or the rest of each.
type Met<'a> = ControlFlow<bool, (&'a [u8], &'a [u8])>;

// Is the first level `#`?
fn starts_hash(filter: &[u8]) -> bool
    ensures { result ≡ lone hash (take (level_len filter.now) filter.now) }
{
    is_lone(&filter[..level_len(filter)], b'#')
}

// The first levels, of t and f bytes, have met; the answer if one of the two has no more.
fn after<'a>(topic: &'a [u8], t: usize, filter: &'a [u8], f: usize) -> Met<'a>
    requires { HaveMet topic.now filter.now t f }
    ensures { Decides topic.now filter.now result }
{
    if f == filter.len() {
        return ControlFlow::Break(t == topic.len());
    }
    if t == topic.len() {
        return ControlFlow::Break(starts_hash(&filter[f + 1..]));
    }
    ControlFlow::Continue((&topic[t + 1..], &filter[f + 1..]))
}

// The first level of the filter, of f bytes, is `+`.
fn meet_plus<'a>(topic: &'a [u8], filter: &'a [u8], f: usize) -> Met<'a>
    requires { Ends filter.now f × (lone plus (take f filter.now) ≡ true) }
    ensures { Decides topic.now filter.now result }
{
    let t = level_len(topic);
    if is_lone(&topic[..t], b'#') {
        return ControlFlow::Break(false);
    }
    after(topic, t, filter, f)
}

// The first levels of both. The end of the topic's is looked for only under `+`.
fn first_levels<'a>(topic: &'a [u8], filter: &'a [u8]) -> Met<'a>
    ensures { Decides topic.now filter.now result }
{
    let f = level_len(filter);
    let level = &filter[..f];
    if is_lone(level, b'#') {
        return ControlFlow::Break(true);
    }
    if is_lone(level, b'+') {
        return meet_plus(topic, filter, f);
    }
    if is_first(topic, level) {
        return after(topic, f, filter, f);
    }
    ControlFlow::Break(false)
}

// The same of so many levels that less of the filter is left than was passed, less by 64 bytes: a short filter is passed whole.
fn half_levels<'a>(topic: &'a [u8], filter: &'a [u8]) -> Met<'a>
    ensures { Decides topic.now filter.now result × Halves filter.now result }
{
    let mut t = topic;
    let mut f = filter;
    while filter.len() - f.len() <= f.len() + 64 {
        (t, f) = first_levels(t, f)?;
    }
    ControlFlow::Continue((t, f))
}

// The levels of the filter match those of the topic: the first levels meet, and the rest of the filter matches the rest of the topic. Each call
// leaves less than half of the filter to the next, so that 65,535 bytes take 10 calls at most, and not one for each of 65,536 levels.
fn rest_matches(topic: &[u8], filter: &[u8]) -> bool
    ensures { result ≡ rest_matches (levels filter.now) (levels topic.now) }
{
    match half_levels(topic, filter) {
        ControlFlow::Break(b) => b,
        ControlFlow::Continue((t, f)) => rest_matches(t, f),
    }
}

// Does a topic begin with `$`, and the filter with a wildcard?
fn is_barred(topic: &[u8], filter: &[u8]) -> bool
    ensures { result ≡ barred topic.now filter.now }
{
    match (topic, filter) {
        ([b'$', ..], [b, ..]) => is_wild(*b),
        _ => false,
    }
}

// Does the filter match the topic, level by level, and is not barred by a leading $? Neither is tested here.
pub fn matches(topic: &[u8], filter: &[u8]) -> bool
    ensures { result ≡ matches_of topic.now filter.now }
{
    if is_barred(topic, filter) {
        return false;
    }
    // a filter that is `#` alone, with no search for levels
    if is_lone(filter, b'#') {
        return true;
    }
    rest_matches(topic, filter)
}

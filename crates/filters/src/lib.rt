// One filter, after `Filter::read` of subscribe.rs. The end of the slice is the end of its room.
#![tactic(auto)]

ghost use Rattle.std.specs.Prelude.{◌≡◌, length, ◌&&◌};
ghost use Rattle.reading.specs.Read.{filter_of};
ghost use Rattle.reading.specs.Place.{as_places};
ghost use Rattle.positions.specs.Position.{from_at};
ghost use Rattle.records.specs.AsNumbers.{told_span};
ghost use Rattle.grammar.specs.Sentence.{rule_fine, qos_fine};
ghost use Rattle.filters.specs.FilterRead.{told_got_filter, options_of, FilterPassed};

use numbers::fixed;
use qos_numbers::retain_forward_rule;
use records::error::Error;
use records::span::Span;
use records::subscribe_record::Filter;
use tables::qos;
use wire::string;

// The filter of a text and its options byte, which ends at `next`: the forward rule before QoS; bits 6 and 7 are ignored.
fn with_options(path: Span, options: u8, next: usize) -> Result<(Filter, usize), Error>
    ensures { told_got_filter result ≡ options_of (told_span path) options next }
{
    let retain_forward_rule = retain_forward_rule(options / 16 % 4)?;
    let qos = qos::qos(options % 4)?;
    let filter = Filter {
        path,
        qos,
        nolocal: fixed::flag(options / 4),
        preserve_retain: fixed::flag(options / 8),
        retain_forward_rule,
    };
    Ok((filter, next))
}

// One filter and the index after it; else 7, 8, 9, 14, then 11.
pub fn read_filter(s: &[u8], at: usize) -> Result<(Filter, usize), Error>
    ensures { told_got_filter result ≡ from_at (filter_of as_places (length s.now)) s.now at }
{
    let (path, end) = string::read_mqtt_string(s, at)?;
    let (options, next) = fixed::read_u8(s, end)?;
    with_options(path, options, next)
}

// Whether an options byte may stand: neither its forward rule nor its QoS is 3.
fn has_options(options: u8) -> bool
    ensures { result ≡ (rule_fine options && qos_fine options) }
{
    if options / 16 % 4 == 3 {
        return false;
    }
    options % 4 != 3
}

// The index after the filter at `at`; `at` if none stands there whole. One number, where `read_filter` hands its answer back in memory.
pub fn pass_filter(s: &[u8], at: usize) -> usize
    ensures { FilterPassed s.now at result }
{
    let Ok((_, end)) = string::read_mqtt_string(s, at) else {
        return at;
    };
    let Ok((options, next)) = fixed::read_u8(s, end) else {
        return at;
    };
    if has_options(options) { next } else { at }
}

// What C and Rust call of topics and filters: the functions of `topics` with 1 for true and 0 for false.
#![tactic(auto)]

ghost use Rattle.std.specs.Prelude.{◌≡◌};
ghost use Rattle.c_topics.specs.Flag.{flag_of};
ghost use Rattle.topics.specs.Levels.{has_wild, valid_topic, valid_filter};
ghost use Rattle.topics.specs.Match.{matches_of};

fn flag(b: bool) -> u8
    ensures { result ≡ flag_of b }
{
    u8::from(b)
}

// Does a topic or filter have wildcards? 1 or 0, here and below.
pub fn ecch_has_wildcards(s: &[u8]) -> u8
    ensures { result ≡ flag_of (has_wild s.now) }
{
    flag(topics::has_wildcards(s))
}

// Is a topic valid?
pub fn ecch_valid_topic(topic: &[u8]) -> u8
    ensures { result ≡ flag_of (valid_topic topic.now) }
{
    flag(topics::valid_topic(topic))
}

// Is a filter valid?
pub fn ecch_valid_filter(filter: &[u8]) -> u8
    ensures { result ≡ flag_of (valid_filter filter.now) }
{
    flag(topics::valid_filter(filter))
}

// Does the filter match the topic?
pub fn ecch_matches(topic: &[u8], filter: &[u8]) -> u8
    ensures { result ≡ flag_of (matches_of topic.now filter.now) }
{
    flag(topics::matches(topic, filter))
}

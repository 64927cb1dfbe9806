// What C and Rust call of topics and filters: the functions of `topics` with 1 for true and 0 for false.
ghost use Rattle.std.specs.Prelude.{◌≡◌};
ghost use Rattle.c_topics.specs.Flag.{flag_of};
ghost use Rattle.topics.specs.Levels.{has_wild, valid_topic, valid_filter};
ghost use Rattle.topics.specs.Match.{matches_of};

// Does a topic or filter have wildcards? 1 or 0, here and below.
#[unsafe(no_mangle)]
pub extern "C" fn ecch_has_wildcards(s: &[u8]) -> u8
    ensures { result ≡ flag_of (has_wild s.now) }
{
    c_topics::ecch_has_wildcards(s)
}

// Is a topic valid?
#[unsafe(no_mangle)]
pub extern "C" fn ecch_valid_topic(topic: &[u8]) -> u8
    ensures { result ≡ flag_of (valid_topic topic.now) }
{
    c_topics::ecch_valid_topic(topic)
}

// Is a filter valid?
#[unsafe(no_mangle)]
pub extern "C" fn ecch_valid_filter(filter: &[u8]) -> u8
    ensures { result ≡ flag_of (valid_filter filter.now) }
{
    c_topics::ecch_valid_filter(filter)
}

// Does the filter match the topic?
#[unsafe(no_mangle)]
pub extern "C" fn ecch_matches(topic: &[u8], filter: &[u8]) -> u8
    ensures { result ≡ flag_of (matches_of topic.now filter.now) }
{
    c_topics::ecch_matches(topic, filter)
}

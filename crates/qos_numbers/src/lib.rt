// The numbers of qualities of service, forward rules and flags, and what a number stands for, after the helpers of mqttbytes/mod.rs
// and subscribe.rs.
#![tactic(auto)]

ghost use Rattle.std.specs.Prelude.{◌≡◌, ◌≤◌};
ghost use Rattle.records.specs.AsNumbers.{told_bool, told_qos, told_rule};
ghost use Rattle.records.specs.Answered.{told_got_rule, rule_of};

use records::error::Error;
use records::qos::QoS;
use records::subscribe_record::RetainForwardRule;

// The bit of a flag.
pub fn bit(b: bool) -> u8
    ensures { (result ≡ told_bool b) × (result ≤ 1) }
{
    if b {
        return 1;
    }
    0
}

// The number of a quality of service, in the two bits.
pub fn qos_number(q: QoS) -> u8
    ensures { result ≡ told_qos q }
{
    match q {
        QoS::AtMostOnce => 0,
        QoS::AtLeastOnce => 1,
        QoS::ExactlyOnce => 2,
    }
}

// The forward rule of a number, or refusal 14 with it.
pub fn retain_forward_rule(num: u8) -> Result<RetainForwardRule, Error>
    ensures { told_got_rule result ≡ rule_of num }
{
    match num {
        0 => Ok(RetainForwardRule::OnEverySubscribe),
        1 => Ok(RetainForwardRule::OnNewSubscribe),
        2 => Ok(RetainForwardRule::Never),
        3..=255 => Err(Error::InvalidRetainForwardRule(num)),
    }
}

// The number of a forward rule, in the two bits.
pub fn rule_number(rule: RetainForwardRule) -> u8
    ensures { result ≡ told_rule rule }
{
    match rule {
        RetainForwardRule::OnEverySubscribe => 0,
        RetainForwardRule::OnNewSubscribe => 1,
        RetainForwardRule::Never => 2,
    }
}
